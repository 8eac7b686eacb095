ghost use Rattle.std.specs.Prelude.{◌≡◌, IfOk};

use crate::json::{Json, JsonFields, JsonList};
use std::alloc::{AllocError, Global};
use text_core::Text;

impl Json {
    /// An equal value with memory of its own.
    #[cycle(copying)]
    pub(crate) fn copy(&self, alloc: Global) -> Result<Json, AllocError>
        ensures equal { IfOk result (λ json. json ≡ self.now) }
    {
        Ok(match self {
            Json::Null => Json::Null,
            Json::Bool(b) => Json::Bool(*b),
            Json::Num(numeral) => Json::Num(Text::of(alloc, numeral.as_str())?),
            Json::Text(text) => Json::Text(Text::of(alloc, text.as_str())?),
            Json::List(items) => Json::List(items.copy(alloc)?),
            Json::Object(fields) => Json::Object(fields.copy(alloc)?),
        })
    }
}

impl JsonList {
    #[cycle(copying)]
    fn copy(&self, alloc: Global) -> Result<JsonList, AllocError>
        ensures equal { IfOk result (λ list. list ≡ self.now) }
    {
        let mut items = Vec::new(alloc);
        for i in 0..self.items.len() {
            items.push(self.items[i].copy(alloc)?)?;
        }
        Ok(JsonList { items })
    }
}

impl JsonFields {
    #[cycle(copying)]
    fn copy(&self, alloc: Global) -> Result<JsonFields, AllocError>
        ensures equal { IfOk result (λ fields. fields ≡ self.now) }
    {
        let mut fields = Vec::new(alloc);
        for i in 0..self.fields.len() {
            let field = &self.fields[i];
            let name = Text::of(alloc, field.0.as_str())?;
            fields.push((name, field.1.copy(alloc)?))?;
        }
        Ok(JsonFields { fields })
    }
}
