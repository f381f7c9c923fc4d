//! A text that grows at its end.

ghost use Rattle.std.specs.Prelude.{◌≡◌, [], ◌++◌, OnOk, OnErr, IfOk, string_bytes};

use crate::NoMemory;
use std::alloc::Global;
use std::marker::Model;

/// A text that grows at its end, seen as its bytes.
#[derive(Drop)]
pub struct Text {
    content: String,
}

impl Model for Text {
    ghost use Rattle.std.specs.Prelude.{List, ℕ, string_bytes};

    ghost Value = { List ℕ };

    ghost view = { λ t. string_bytes t.content };
}

impl Text {
    /// The empty text.
    pub fn new(alloc: Global) -> Self
        ensures { result ≡ [] }
    {
        Text {
            content: String::new(alloc),
        }
    }

    /// A text of those bytes.
    pub fn copy_of(alloc: Global, s: &str) -> Result<Text, NoMemory>
        ensures { IfOk result (λ t. t ≡ s.now) }
    {
        let mut text = Text::new(alloc);
        text.push_str(s)?;
        Ok(text)
    }

    /// The text of a string, whose room it keeps.
    pub fn from_string(content: String) -> Self
        ensures { result ≡ string_bytes content }
    {
        Text { content }
    }

    /// The text as a string.
    pub fn into_string(self) -> String
        ensures { string_bytes result ≡ self }
    {
        self.content
    }

    /// Appends `s`. After an error the text is as before.
    pub fn push_str(&mut self, s: &str) -> Result<(), NoMemory>
        ensures ok { OnOk result (self.new ≡ self.old ++ s.now) }
        ensures err { OnErr result (self.new ≡ self.old) }
    {
        self.content.push_str(s)?;
        Ok(())
    }

    /// The whole text.
    pub fn as_str(&self) -> &str
        ensures { result.now ≡ self.now }
    {
        self.content.as_str()
    }
}
