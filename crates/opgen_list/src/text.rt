//! `Text`: a `String` that contracts see as the list of its bytes.
ghost use Rattle.std.specs.Prelude.{◌≡◌, IfOk, string_bytes};

use std::alloc::{AllocError, Global};
use std::marker::Model;

/// A `String` that contracts see as the list of its bytes.
#[derive(Drop)]
pub struct Text {
    string: String,
}

impl Model for Text {
    ghost use Rattle.std.specs.Prelude.{List, ℕ, string_bytes};

    ghost Value = { List ℕ };

    ghost view = { λ a. string_bytes a.string };
}

impl Text {
    pub fn from_str(alloc: Global, text: &str) -> Result<Text, AllocError>
        ensures { IfOk result (λ t. t ≡ text.now) }
    {
        Ok(Text {
            string: String::from_str(alloc, text)?,
        })
    }

    pub fn from_string(string: String) -> Text
        ensures { result ≡ string_bytes string }
    {
        Text { string }
    }

    pub fn as_str(&self) -> &str
        ensures { result.now ≡ self.now }
    {
        &self.string
    }

    /// Another text of the same bytes.
    pub fn copy(&self, alloc: Global) -> Result<Text, AllocError>
        ensures { IfOk result (λ t. t ≡ self.now) }
    {
        Text::from_str(alloc, &self.string)
    }
}
