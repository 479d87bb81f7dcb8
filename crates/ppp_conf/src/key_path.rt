//! The paths of keys.

ghost use Rattle.std.specs.Prelude.{◌≡◌, ◌++◌, Some, IfOk, IsTrue};
ghost use Rattle.std.specs.Ordering.{is_le};

use std::alloc::{AllocError, Global};
use std::fmt;
use std::marker::Model;

/// The path of a key, such as `links` or `a.mru`, or `-` where the settings aren't TOML at all. It is seen as its text,
/// and prints as it.
#[derive(Debug, Drop)]
pub struct KeyPath {
    text: String,
}

impl Model for KeyPath {
    ghost use Rattle.std.specs.Prelude.{ℕ, List, string_bytes};

    ghost Value = { List ℕ };

    ghost view = { λ path. string_bytes path.text };
}

impl KeyPath {
    /// The path of this key in a table with this prefix, which is empty or ends with a dot.
    pub(crate) fn new(alloc: Global, prefix: &str, name: &str) -> Result<KeyPath, AllocError>
        ensures { IfOk result (λ path. path ≡ prefix.now ++ name.now) }
    {
        let mut text = String::from_str(alloc, prefix)?;
        text.push_str(name)?;
        Ok(KeyPath { text })
    }

    /// The text.
    pub fn text(&self) -> &str
        ensures { result.now ≡ self.now }
    {
        self.text.as_str()
    }
}

impl fmt::Display for KeyPath {
    ghost output = { λ path. Some path };

    fn fmt<W: fmt::Write>(&self, f: &mut fmt::Formatter<W>) -> fmt::Result {
        f.write_str(self.text())
    }
}
