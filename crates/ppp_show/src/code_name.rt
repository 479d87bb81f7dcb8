//! The names of packets.

ghost use Rattle.std.specs.Prelude.{◌≡◌, Some};
ghost use Rattle.ppp_show.specs.CodeName.{code_text, code_under};

use ppp_packet::{Code, Proto};
use std::fmt;

/// A packet's number, and the code that it is. It prints as the code's name, or as `Code-N` where it is none.
#[derive(Clone, Copy)]
pub(crate) struct CodeName {
    pub(crate) number: u8,
    pub(crate) code: Option<Code>,
}

impl fmt::Display for CodeName {
    ghost output = { λ name. Some (code_text name.number name.code) };

    fn fmt<W: fmt::Write>(&self, f: &mut fmt::Formatter<W>) -> fmt::Result {
        match self.code {
            Some(code) => write!(f, "{code}"),
            None => {
                let number = self.number;
                write!(f, "Code-{number}")
            }
        }
    }
}

/// The code of a protocol's packet. None where the protocol has no code of that number: codes 8 to 11 are LCP's alone
/// (RFC 1661 sections 5.7 to 5.9).
pub(crate) fn code_under(proto: Proto, number: u8) -> Option<Code>
    ensures { result ≡ code_under proto number }
{
    if number > 7 && proto != Proto::Lcp {
        return None;
    }
    Code::try_from(number).ok()
}
