//! What a response says.

ghost use Rattle.std.specs.Prelude.{◌≡◌};
ghost use Rattle.ppp_bap.specs.ResponseCode.{code_number, read_code};

/// What a response says (RFC 2125, response codes).
#[derive(Clone, Copy, Debug, PartialEq, Eq)]
pub(crate) enum ResponseCode {
    /// Code 0, Request-Ack: it is granted.
    Ack,
    /// Code 1, Request-Nak: not now.
    Nak,
    /// Code 2, Request-Rej: this end doesn't do that.
    Rej,
    /// Code 3, Request-Full-Nak: not while the bundle is as it is.
    FullNak,
}

impl ResponseCode {
    /// The code's number, 0 to 3.
    pub(crate) const fn number(self) -> u8
        ensures { result ≡ code_number self }
    {
        match self {
            ResponseCode::Ack => 0,
            ResponseCode::Nak => 1,
            ResponseCode::Rej => 2,
            ResponseCode::FullNak => 3,
        }
    }

    /// The code of a number. Another number counts as a Request-Nak, which is this project's rule.
    pub(crate) const fn read(number: u8) -> ResponseCode
        ensures { result ≡ read_code number }
    {
        match number {
            0 => ResponseCode::Ack,
            2 => ResponseCode::Rej,
            3 => ResponseCode::FullNak,
            _ => ResponseCode::Nak,
        }
    }
}
