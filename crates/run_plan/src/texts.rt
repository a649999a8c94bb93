//! Texts that contracts see as their bytes.

ghost use Rattle.std.specs.Prelude.{◌≡◌, ◌≤◌, length, Some, IfOk};

use glass_edges::NoMemory;
use std::alloc::Global;
use std::fmt;
use std::marker::Model;

/// A text of any length. Contracts see its bytes.
#[derive(Debug, Drop)]
pub struct KeyText {
    text: String,
}

impl Model for KeyText {
    ghost use Rattle.std.specs.Prelude.{List, ℕ, string_bytes};

    ghost Value = { List ℕ };

    ghost view = { λ a. string_bytes a.text };
}

impl KeyText {
    /// A copy of a text.
    pub(crate) fn of(alloc: Global, text: &str) -> Result<KeyText, NoMemory>
        ensures { IfOk result (λ key. key ≡ text.now) }
    {
        Ok(KeyText {
            text: String::from_str(alloc, text)?,
        })
    }

    /// The text.
    pub fn as_str(&self) -> &str
        ensures { result.now ≡ self.now }
    {
        self.text.as_str()
    }
}

impl fmt::Display for KeyText {
    ghost output = { λ key. Some key };

    fn fmt<W: fmt::Write>(&self, f: &mut fmt::Formatter<W>) -> fmt::Result {
        f.write_str(self.as_str())
    }
}

/// The name of a file, of 1 to 255 bytes. Contracts see its bytes.
#[derive(Debug, Drop)]
pub struct NameText {
    text: String,
}

impl Model for NameText {
    ghost use Rattle.std.specs.Prelude.{List, ℕ, string_bytes, ◌≤◌, length};

    ghost Value = { List ℕ };

    ghost view = { λ a. string_bytes a.text };

    ghost invariant = { λ a. (1 ≤ length (string_bytes a.text)) × (length (string_bytes a.text) ≤ 255) };
}

impl NameText {
    /// A copy of a name.
    pub(crate) fn of(alloc: Global, name: &str) -> Result<NameText, NoMemory>
        requires some { 1 ≤ length name.now }
        requires short { length name.now ≤ 255 }
        ensures { IfOk result (λ text. text ≡ name.now) }
    {
        Ok(NameText {
            text: String::from_str(alloc, name)?,
        })
    }

    /// The name.
    pub fn as_str(&self) -> &str
        ensures value { result.now ≡ self.now }
        ensures some { 1 ≤ length self.now }
        ensures short { length self.now ≤ 255 }
    {
        self.text.as_str()
    }
}
