ghost use Rattle.std.specs.Prelude.{◌≡◌};
ghost use Rattle.json_values.specs.Seen.{json_value};
ghost use Rattle.json_values.specs.Value.{same_json, same_items, same_fields};

use crate::json::{Json, JsonFields, JsonList};

impl Json {
    /// Whether the two have one variant and equal content.
    #[cycle(comparing)]
    pub(crate) fn same(&self, o: &Json) -> bool
        ensures exact { result ≡ same_json (json_value self.now) (json_value o.now) }
    {
        match self {
            Json::Null => matches!(o, Json::Null),
            Json::Bool(a) => matches!(o, Json::Bool(b) if *a == *b),
            Json::Num(a) => matches!(o, Json::Num(b) if a.as_str() == b.as_str()),
            Json::Text(a) => matches!(o, Json::Text(b) if a.as_str() == b.as_str()),
            Json::List(a) => matches!(o, Json::List(b) if a.same(b)),
            Json::Object(a) => matches!(o, Json::Object(b) if a.same(b)),
        }
    }
}

impl JsonList {
    #[cycle(comparing)]
    fn same(&self, o: &JsonList) -> bool
        ensures exact { result ≡ same_items self.now o.now }
    {
        if self.items.len() != o.items.len() {
            return false;
        }
        for i in 0..self.items.len() {
            if !self.items[i].same(&o.items[i]) {
                return false;
            }
        }
        true
    }
}

impl JsonFields {
    #[cycle(comparing)]
    fn same(&self, o: &JsonFields) -> bool
        ensures exact { result ≡ same_fields self.now o.now }
    {
        if self.fields.len() != o.fields.len() {
            return false;
        }
        for i in 0..self.fields.len() {
            let (a, b) = (&self.fields[i], &o.fields[i]);
            if a.0.as_str() != b.0.as_str() || !a.1.same(&b.1) {
                return false;
            }
        }
        true
    }
}
