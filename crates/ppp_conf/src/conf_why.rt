//! Why settings are refused.

ghost use Rattle.std.specs.Prelude.{Some};
ghost use Rattle.ppp_conf.specs.ConfWhy.{why_name};

use std::fmt;

/// Why settings are refused. It prints as its variant's name.
#[derive(Clone, Copy, Debug, PartialEq, Eq)]
pub enum ConfWhy {
    /// The text isn't TOML.
    Toml,
    /// The key has to be there.
    Missing,
    /// There is no such key.
    Unknown,
    /// The value is of another kind.
    Wrong,
    /// The number is out of its range.
    Range,
    /// The text, or the array, hasn't its form.
    Form,
    /// The value doesn't fit the values of other keys.
    Rule,
}

impl fmt::Display for ConfWhy {
    ghost output = { λ why. Some (why_name why) };

    fn fmt<W: fmt::Write>(&self, f: &mut fmt::Formatter<W>) -> fmt::Result {
        f.write_str(match self {
            ConfWhy::Toml => "Toml",
            ConfWhy::Missing => "Missing",
            ConfWhy::Unknown => "Unknown",
            ConfWhy::Wrong => "Wrong",
            ConfWhy::Range => "Range",
            ConfWhy::Form => "Form",
            ConfWhy::Rule => "Rule",
        })
    }
}
