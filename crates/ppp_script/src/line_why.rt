//! Why a line is refused.

ghost use Rattle.std.specs.Prelude.{Some};
ghost use Rattle.ppp_script.specs.LineWhy.{why_name};

use std::fmt;

/// Why a line is refused. It prints as its variant's name.
#[derive(Clone, Copy, Debug, PartialEq, Eq)]
pub enum LineWhy {
    /// The line has none of the forms.
    Event,
    /// Its link, a number from 1 to 255, isn't configured.
    Link,
    /// It brings the steps above 100,000.
    Steps,
}

impl fmt::Display for LineWhy {
    ghost output = { λ why. Some (why_name why) };

    fn fmt<W: fmt::Write>(&self, f: &mut fmt::Formatter<W>) -> fmt::Result {
        f.write_str(match self {
            LineWhy::Event => "Event",
            LineWhy::Link => "Link",
            LineWhy::Steps => "Steps",
        })
    }
}
