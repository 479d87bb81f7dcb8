//! The line of a piece that is discarded.

ghost use Rattle.std.specs.Prelude.{◌≡◌, Some};
ghost use Rattle.ppp_show.specs.DiscardLine.{discard_line, why_name};

use ppp_frame::Why;
use std::fmt;

/// A piece that is no frame. It prints as `discard WHY`, with its LF.
#[derive(Clone, Copy)]
pub(crate) struct DiscardLine {
    pub(crate) why: Why,
}

impl fmt::Display for DiscardLine {
    ghost output = { λ line. Some (discard_line line.why) };

    fn fmt<W: fmt::Write>(&self, f: &mut fmt::Formatter<W>) -> fmt::Result {
        let why = why_name(self.why);
        write!(f, "discard {why}\n")
    }
}

/// The name of a cause.
fn why_name(why: Why) -> &'static str
    ensures { result.now ≡ why_name why }
{
    match why {
        Why::Aborted => "Aborted",
        Why::Oversize => "Oversize",
        Why::Short => "Short",
        Why::BadFcs => "BadFcs",
        Why::BadHeader => "BadHeader",
    }
}
