//! The Types of BAP packets.

ghost use Rattle.std.specs.Prelude.{◌≡◌};
ghost use Rattle.ppp_bap.specs.PacketType.{has_code, read_type, type_number};

/// The Type of a BAP packet (RFC 2125).
#[derive(Clone, Copy, Debug, PartialEq, Eq)]
pub enum PacketType {
    /// Type 1, a Call-Request.
    CallRequest,
    /// Type 2, a Call-Response.
    CallResponse,
    /// Type 3, a Callback-Request.
    CallbackRequest,
    /// Type 4, a Callback-Response.
    CallbackResponse,
    /// Type 5, a Link-Drop-Query-Request.
    DropRequest,
    /// Type 6, a Link-Drop-Query-Response.
    DropResponse,
    /// Type 7, a Call-Status-Indication.
    StatusIndication,
    /// Type 8, a Call-Status-Response.
    StatusResponse,
}

impl PacketType {
    /// The Type's number, 1 to 8.
    pub const fn number(self) -> u8
        ensures { result ≡ type_number self }
    {
        match self {
            PacketType::CallRequest => 1,
            PacketType::CallResponse => 2,
            PacketType::CallbackRequest => 3,
            PacketType::CallbackResponse => 4,
            PacketType::DropRequest => 5,
            PacketType::DropResponse => 6,
            PacketType::StatusIndication => 7,
            PacketType::StatusResponse => 8,
        }
    }

    /// The Type of a number: None where it is no Type's.
    pub const fn read(number: u8) -> Option<PacketType>
        ensures { result ≡ read_type number }
    {
        match number {
            1 => Some(PacketType::CallRequest),
            2 => Some(PacketType::CallResponse),
            3 => Some(PacketType::CallbackRequest),
            4 => Some(PacketType::CallbackResponse),
            5 => Some(PacketType::DropRequest),
            6 => Some(PacketType::DropResponse),
            7 => Some(PacketType::StatusIndication),
            8 => Some(PacketType::StatusResponse),
            _ => None,
        }
    }

    /// Whether a response code stands before the options.
    pub const fn has_code(self) -> bool
        ensures { result ≡ has_code self }
    {
        matches!(
            self,
            PacketType::CallResponse
                | PacketType::CallbackResponse
                | PacketType::DropResponse
                | PacketType::StatusResponse
        )
    }
}
