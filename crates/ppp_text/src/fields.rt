//! The fields of a line.

ghost use Rattle.std.specs.Prelude.{◌≡◌, ◌↔◌, [], ◌∷◌, IsTrue, MatchOption};

use crate::split::split_once;
use std::marker::Model;

/// The fields of a line that are still to be read, seen as that list. Fields are parted by one space, so two spaces have
/// an empty field between them.
#[derive(Debug, Drop)]
pub struct Fields<'a> {
    /// What stands behind the last space, where there is one.
    left: Option<&'a [u8]>,
}

impl<'a> Model for Fields<'a> {
    ghost use Rattle.std.specs.Prelude.{ℕ, List};
    ghost use Rattle.ppp_text.specs.Fields.{fields_behind};

    ghost Value = { List (List ℕ) };

    ghost view = { λ f. fields_behind f.left };
}

impl<'a> Fields<'a> {
    ghost use Rattle.ppp_text.specs.Fields.{fields_of};

    /// All fields of a line. An empty line has one field, which is empty.
    pub fn of(line: &'a [u8]) -> Self
        ensures { result ≡ fields_of line.now }
    {
        Fields { left: Some(line) }
    }

    /// The first field, and those behind it. None exactly where no field is left.
    pub fn next(&self) -> Option<(&'a [u8], Fields<'a>)>
        ensures { MatchOption result (self.now ≡ []) (λ r. self.now ≡ r.0.now ∷ r.1) }
    {
        let text = self.left?;
        match split_once(text, b' ') {
            Some((field, behind)) => Some((field, Fields { left: Some(behind) })),
            None => Some((text, Fields { left: None })),
        }
    }

    /// Whether no field is left.
    pub fn is_done(&self) -> bool
        ensures { IsTrue result ↔ (self.now ≡ []) }
    {
        self.left.is_none()
    }
}
