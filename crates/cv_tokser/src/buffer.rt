//! A text that grows at its end.

ghost use Rattle.std.specs.Prelude.{◌≡◌, ◌++◌, [], ◌∷◌, chars, OnOk};

use cv_spec_text::OutOfMemory;
use std::alloc::Global;
use std::marker::Model;

/// A text that grows at its end. Contracts see the list of its characters.
#[derive(Drop)]
pub struct Buffer {
    text: String,
}

impl Model for Buffer {
    ghost use Rattle.std.specs.Prelude.{List, ℕ, chars, string_bytes};

    ghost Value = { List ℕ };

    ghost view = { λ buffer. chars (string_bytes buffer.text) };
}

impl Buffer {
    /// No text.
    pub fn new(alloc: Global) -> Self
        ensures { result ≡ [] }
    {
        Buffer {
            text: String::new(alloc),
        }
    }

    /// The text itself.
    pub fn text(&self) -> &str
        ensures { chars result.now ≡ self.now }
    {
        self.text.as_str()
    }

    /// Adds a character.
    pub fn push(&mut self, character: char) -> Result<(), OutOfMemory>
        ensures { OnOk result (self.new ≡ self.old ++ character ∷ []) }
    {
        self.text.as_str();
        self.text.push(character)
    }

    /// Adds a text.
    pub fn push_text(&mut self, text: &str) -> Result<(), OutOfMemory>
        ensures { OnOk result (self.new ≡ self.old ++ chars text.now) }
    {
        self.text.as_str();
        self.text.push_str(text)
    }
}
