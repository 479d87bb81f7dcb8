//! The two ends.

ghost use Rattle.std.specs.Prelude.{Some};
ghost use Rattle.ppp_script.specs.End.{end_name};

use std::fmt;

/// One of the two ends. It prints as lines and reports name it, `a` or `b`.
#[derive(Clone, Copy, Debug, PartialEq, Eq)]
pub enum End {
    /// The end `a`.
    A,
    /// The end `b`.
    B,
}

impl fmt::Display for End {
    ghost output = { λ end. Some (end_name end) };

    fn fmt<W: fmt::Write>(&self, f: &mut fmt::Formatter<W>) -> fmt::Result {
        f.write_str(match self {
            End::A => "a",
            End::B => "b",
        })
    }
}
