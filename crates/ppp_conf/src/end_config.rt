//! The settings of one end.

ghost use Rattle.std.specs.Prelude.{◌≡◌, ◌<◌, ◌≤◌, ℕ, Bool, true, false, is_some, length, slice_index};
ghost use Rattle.ppp_packet.specs.DiscClass.{is_good_disc};
ghost use Rattle.ppp_conf.specs.Form.{is_alignment, is_zero_or};
ghost use Rattle.ppp_conf.specs.Rules.{all_within, broken};
ghost use Rattle.ppp_conf.specs.SocketText.{is_socket};

use crate::socket_text::SocketText;
use ppp_packet::Disc;

/// The settings of one end. Each value is within its range, and together they keep the rules: with `short` there are at
/// most 4 `classes`; `least` is at most `most`; with `bap`, `mrru` isn't 0, and `favored` and `link_disc` are there.
#[derive(Debug, Drop)]
pub struct EndConfig {
    /// The number of links, 1 to 16.
    pub links: u8,
    /// The Maximum-Receive-Unit to ask for, 128 to 8,192 (RFC 1661 section 6.1).
    pub mru: u16,
    /// The Async-Control-Character-Map to ask for (RFC 1662 section 7.1).
    pub accm: u32,
    /// Whether to ask for a Magic-Number (RFC 1661 section 6.4).
    pub magic: bool,
    /// Whether to ask for Protocol-Field-Compression (RFC 1661 section 6.5).
    pub pfc: bool,
    /// Whether to ask for Address-and-Control-Field-Compression (RFC 1661 section 6.6).
    pub acfc: bool,
    /// The Maximum-Received-Reconstructed-Unit to ask for, 1,500 to 8,192, or 0 for no multilink (RFC 1990 section
    /// 5.1.1).
    pub mrru: u16,
    /// Whether to ask for short sequence numbers (RFC 1990 section 5.1.2).
    pub short: bool,
    /// The classes to ask for, 0 to 16 (after RFC 2686).
    pub classes: u8,
    /// The Endpoint-Discriminator, whose Class has an address of that length (RFC 1990 section 5.1.3).
    pub disc: Disc,
    /// The Link-Discriminator of link 1, 0 to 65,520 (after RFC 2125); link l has the number l - 1 further.
    pub link_disc: Option<u16>,
    /// The Favored-Peer number, from 1 on (after RFC 2125).
    pub favored: Option<u32>,
    /// Whether BACP and BAP are spoken (after RFC 2125).
    pub bap: bool,
    /// Which network protocols are spoken: IPv4, IPv6, OSI, MPLS.
    pub protocols: [bool; 4],
    /// The IPv4 address to ask for; 0 asks the peer to give one (RFC 1332 section 3.3).
    pub ip: u32,
    /// The IPv4 address to give to a peer that asks for one, which isn't 0.
    pub give: Option<u32>,
    /// The Interface-Identifier to ask for, or None to ask for none (RFC 5072 section 4.1).
    pub ifid: Option<u64>,
    /// The alignment of OSI network protocol data units, 0 to 4, 254 or 255 (after RFC 1377).
    pub align: u8,
    /// The most octets of a fragment, 64 to 8,192.
    pub fragment: u16,
    /// The most links of a bundle, 1 to 16.
    pub most: u8,
    /// The least links of a bundle, 1 to 16.
    pub least: u8,
    /// Whether calls are accepted.
    pub calls: bool,
    /// Whether callbacks are accepted.
    pub callbacks: bool,
    /// The speed of a link, in kilobits a second.
    pub speed: u16,
    /// The most speed of a bundle, in kilobits a second.
    pub max_speed: u16,
    /// What the links' sockets are named after.
    pub socket: SocketText,
    /// Whether this end listens at its sockets.
    pub listen: bool,
    pub ghost links_within: { (1 ≤ links) × (links ≤ 16) },
    pub ghost mru_within: { (128 ≤ mru) × (mru ≤ 8192) },
    pub ghost accm_within: { accm ≤ 4294967295 },
    pub ghost mrru_within: { is_zero_or 1500 8192 mrru ≡ true },
    pub ghost classes_within: { classes ≤ 16 },
    pub ghost disc_good: { is_good_disc disc.class disc.size ≡ true },
    pub ghost disc_octets: { (i : ℕ) → slice_index disc.address i < 256 },
    pub ghost link_disc_within: { all_within 0 65520 link_disc ≡ true },
    pub ghost favored_within: { all_within 1 4294967295 favored ≡ true },
    pub ghost protocols_four: { length protocols ≡ 4 },
    pub ghost ip_within: { ip ≤ 4294967295 },
    pub ghost give_within: { all_within 1 4294967295 give ≡ true },
    pub ghost ifid_within: { all_within 0 18446744073709551615 ifid ≡ true },
    pub ghost align_form: { is_alignment align ≡ true },
    pub ghost fragment_within: { (64 ≤ fragment) × (fragment ≤ 8192) },
    pub ghost most_within: { (1 ≤ most) × (most ≤ 16) },
    pub ghost least_within: { (1 ≤ least) × (least ≤ 16) },
    pub ghost speed_within: { speed ≤ 65535 },
    pub ghost max_speed_within: { max_speed ≤ 65535 },
    pub ghost socket_form: { is_socket socket ≡ true },
    pub ghost rules: { is_some (broken short classes most least bap mrru favored link_disc) ≡ false },
}
