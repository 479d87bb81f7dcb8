//! Kinds of links (RFC 2125, the Link-Type option).

ghost use Rattle.std.specs.Prelude.{◌≡◌, ⊤};

use bitflags::{Flag, Flags, bitflag_items};

/// A set of kinds of links (RFC 2125, the Link-Type option).
#[derive(Clone, Copy, Debug, PartialEq, Eq)]
pub struct LinkType(u8);

bitflag_items! {
    impl LinkType: u8 {
        const ISDN = 1;
        const X25 = 2;
        const ANALOG = 4;
        const SWITCHED = 8;
        const VOICE = 16;
    }
}

impl LinkType {
    ghost use Rattle.ppp_bap.specs.LinkType.{known_kinds};

    /// The set of these bits, without those of no kind.
    pub(crate) fn known(bits: u8) -> LinkType
        ensures { result ≡ known_kinds bits }
    {
        LinkType::from_bits_truncate(bits)
    }
}

impl Flags for LinkType {
    type Bits = u8;

    ghost exact = { ⊤ };

    ghost use Rattle.ppp_bap.specs.LinkType.{kinds};

    ghost table = { kinds };

    ghost set_of = { λ kinds. kinds.0 };

    fn flags<'a>() -> &'a [Flag<LinkType>] {
        LinkType::FLAGS
    }

    fn bits(&self) -> u8 {
        self.0
    }

    fn from_bits_retain(bits: u8) -> LinkType {
        LinkType(bits)
    }
}
