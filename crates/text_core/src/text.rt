ghost use Rattle.std.specs.Prelude.{◌≡◌, IfOk};
ghost use Rattle.std.specs.String.{string_bytes};

use arrayvec::ArrayString;
use std::alloc::{AllocError, Global};
use std::marker::Model;

/// A text of its own, seen as its UTF-8 bytes.
#[derive(Drop)]
pub struct Text {
    content: Content,
}

// A text of at most 24 bytes, as most numerals are, lies in the value itself.
#[derive(Drop)]
enum Content {
    Short(ArrayString<24>),
    Long(String),
}

impl Model for Text {
    ghost use Rattle.std.specs.Prelude.{List, ℕ};
    ghost use Rattle.text_core.specs.Text.{content_bytes};

    ghost Value = { List ℕ };

    ghost view = { λ t. content_bytes t.content };
}

impl Text {
    /// A copy of this text. Takes memory for a text of more than 24 bytes alone.
    pub fn of(alloc: Global, s: &str) -> Result<Text, AllocError>
        ensures copied { IfOk result (λ t. t ≡ s.now) }
    {
        let content = match ArrayString::from(s) {
            Ok(short) => Content::Short(short),
            Err(_) => Content::Long(String::from_str(alloc, s)?),
        };
        Ok(Text { content })
    }

    /// This text, which is moved. Takes no memory.
    pub fn from_string(content: String) -> Text
        ensures kept { result ≡ string_bytes content }
    {
        Text {
            content: Content::Long(content),
        }
    }

    /// The whole text, lent.
    pub fn as_str(&self) -> &str
        ensures lent { result.now ≡ self.now }
    {
        match &self.content {
            Content::Short(short) => short.as_str(),
            Content::Long(long) => long.as_str(),
        }
    }
}
