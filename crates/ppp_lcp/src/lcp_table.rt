//! What an end asks for of LCP.

ghost use Rattle.std.specs.Prelude.{◌≡◌, ◌≤◌, IsTrue};
ghost use Rattle.ppp_packet.specs.DiscClass.{is_good_disc};
ghost use Rattle.ppp_lcp.specs.declared.lcp_table.TheConstants.{LEAST_MRU, MOST_MRU};
ghost use Rattle.ppp_lcp.specs.LcpRanges.{is_mrru, are_classes};

use ppp_packet::Disc;

/// The Maximum-Receive-Unit that holds where none is negotiated, in octets (RFC 1661 section 6.1).
pub const DEFAULT_MRU: u16 = 1500;

/// The least Maximum-Receive-Unit that is acceptable, in octets.
pub const LEAST_MRU: u16 = 128;

/// The greatest that is asked for.
pub const MOST_MRU: u16 = 8192;

/// The map that holds where none is negotiated: every octet below 0x20 is escaped (RFC 1662 section 7.1).
pub const DEFAULT_ACCM: u32 = 0xffff_ffff;

/// The least Maximum-Reconstructed-Receive-Unit that is acceptable, in octets (RFC 1990 section 5.1.1).
pub const LEAST_MRRU: u16 = 1500;

/// The greatest that is asked for.
pub const MOST_MRRU: u16 = 8192;

/// The octets of a header's form with classes: its code and a count.
pub const FORM_OCTETS: usize = 2;

/// The code of long multilink headers with classes (after RFC 2686).
pub const LONG_CODE: u8 = 2;

/// The code of short ones.
pub const SHORT_CODE: u8 = 6;

/// The most classes that a long multilink header tells apart.
pub const MOST_LONG_CLASSES: u8 = 16;

/// The most that a short one does.
pub const MOST_SHORT_CLASSES: u8 = 4;

/// What an end asks for of LCP, and what it takes of a peer's options.
#[derive(Clone, Copy, Debug, PartialEq, Eq)]
pub struct LcpTable {
    /// The own Maximum-Receive-Unit, 128 to 8,192 octets. 1,500 isn't asked for.
    pub mru: u16,
    /// The octets below 0x20 that the peer has to escape, bit n for octet n. All isn't asked for.
    pub accm: u32,
    /// Whether a Magic-Number is asked for.
    pub magic: bool,
    /// The own Maximum-Reconstructed-Receive-Unit, 1,500 to 8,192 octets, or 0 for no multilink.
    pub mrru: u16,
    /// Whether short multilink headers are asked for.
    pub short: bool,
    /// How many classes of multilink this end takes, up to 16, or 4 with short headers; 0 asks for no classes.
    pub classes: u8,
    /// The own endpoint discriminator. The null class isn't asked for.
    pub disc: Disc,
    /// The own number of the link, if it has one.
    pub link_disc: Option<u16>,
    /// Whether the peer may leave out the first octet of a protocol (Protocol-Field-Compression).
    pub pfc: bool,
    /// Whether the peer may leave out address and control (Address-and-Control-Field-Compression).
    pub acfc: bool,
    pub ghost least_mru: { LEAST_MRU ≤ mru },
    pub ghost most_mru: { mru ≤ MOST_MRU },
    pub ghost is_mrru: { IsTrue (is_mrru mrru) },
    pub ghost are_classes: { IsTrue (are_classes short classes) },
    pub ghost is_disc: { IsTrue (is_good_disc disc.class disc.size) },
}
