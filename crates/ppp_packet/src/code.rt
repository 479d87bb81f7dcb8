//! The codes of packets (RFC 1661 section 5).

ghost use Rattle.std.specs.Prelude.{◌≡◌};
ghost use Rattle.ppp_packet.specs.Code.{code_number, read_code};

use std::fmt;
use thiserror::Error;

/// The code of a packet (RFC 1661 section 5).
#[derive(Clone, Copy, Debug, PartialEq, Eq)]
pub enum Code {
    /// Code 1 (section 5.1).
    ConfigureRequest,
    /// Code 2 (section 5.2).
    ConfigureAck,
    /// Code 3 (section 5.3).
    ConfigureNak,
    /// Code 4 (section 5.4).
    ConfigureReject,
    /// Code 5 (section 5.5).
    TerminateRequest,
    /// Code 6 (section 5.5).
    TerminateAck,
    /// Code 7 (section 5.6).
    CodeReject,
    /// Code 8, of LCP alone (section 5.7).
    ProtocolReject,
    /// Code 9, of LCP alone (section 5.8).
    EchoRequest,
    /// Code 10, of LCP alone (section 5.8).
    EchoReply,
    /// Code 11, of LCP alone (section 5.9).
    DiscardRequest,
}

/// A number that is no packet's code.
#[derive(Clone, Copy, Debug, PartialEq, Eq, Error)]
#[error("no packet has the code {0}")]
pub struct UnknownCode(pub u8);

impl Code {
    /// The code's number, 1 to 11.
    pub const fn number(self) -> u8
        ensures { result ≡ code_number self }
    {
        match self {
            Code::ConfigureRequest => 1,
            Code::ConfigureAck => 2,
            Code::ConfigureNak => 3,
            Code::ConfigureReject => 4,
            Code::TerminateRequest => 5,
            Code::TerminateAck => 6,
            Code::CodeReject => 7,
            Code::ProtocolReject => 8,
            Code::EchoRequest => 9,
            Code::EchoReply => 10,
            Code::DiscardRequest => 11,
        }
    }
}

impl From<Code> for u8 {
    ghost from_gives = { λ code number. number ≡ code_number code };

    fn from(code: Code) -> u8 {
        code.number()
    }
}

impl TryFrom<u8> for Code {
    type Error = UnknownCode;

    ghost try_from_gives = { λ number answer. answer ≡ read_code number };

    fn try_from(number: u8) -> Result<Code, UnknownCode> {
        match number {
            1 => Ok(Code::ConfigureRequest),
            2 => Ok(Code::ConfigureAck),
            3 => Ok(Code::ConfigureNak),
            4 => Ok(Code::ConfigureReject),
            5 => Ok(Code::TerminateRequest),
            6 => Ok(Code::TerminateAck),
            7 => Ok(Code::CodeReject),
            8 => Ok(Code::ProtocolReject),
            9 => Ok(Code::EchoRequest),
            10 => Ok(Code::EchoReply),
            11 => Ok(Code::DiscardRequest),
            _ => Err(UnknownCode(number)),
        }
    }
}

impl fmt::Display for Code {
    ghost use Rattle.std.specs.Prelude.{Some};
    ghost use Rattle.ppp_packet.specs.Code.{code_name};

    ghost output = { λ code. Some (code_name code) };

    fn fmt<W: fmt::Write>(&self, f: &mut fmt::Formatter<W>) -> fmt::Result {
        f.write_str(match self {
            Code::ConfigureRequest => "Configure-Request",
            Code::ConfigureAck => "Configure-Ack",
            Code::ConfigureNak => "Configure-Nak",
            Code::ConfigureReject => "Configure-Reject",
            Code::TerminateRequest => "Terminate-Request",
            Code::TerminateAck => "Terminate-Ack",
            Code::CodeReject => "Code-Reject",
            Code::ProtocolReject => "Protocol-Reject",
            Code::EchoRequest => "Echo-Request",
            Code::EchoReply => "Echo-Reply",
            Code::DiscardRequest => "Discard-Request",
        })
    }
}
