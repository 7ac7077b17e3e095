// A text that contracts see as its bytes.
ghost use Rattle.std.specs.Prelude.{◌≡◌, ℕ, List, string_bytes};

use std::marker::Model;

/// UTF-8 text. Contracts see it as the list of its bytes.
#[derive(Debug, Drop)]
pub struct Text {
    text: String,
}

impl Model for Text {
    ghost Value = { List ℕ };

    ghost view = { λ t. string_bytes t.text };
}

impl Text {
    /// Holds this text.
    pub fn new(text: String) -> Self
        ensures { result ≡ string_bytes text }
    {
        Text { text }
    }

    /// The text.
    pub fn as_str(&self) -> &str
        ensures { result.now ≡ self.now }
    {
        self.text.as_str()
    }
}
