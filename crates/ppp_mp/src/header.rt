//! The header of a fragment.

ghost use Rattle.std.specs.Prelude.{◌≡◌, ◌≤◌, true, false, length, IfSome};
ghost use Rattle.ppp_mp.specs.Header as spec;
ghost use Rattle.ppp_mp.specs.Header.{IsHeaderOf, header_octets, header_of, space_of};

use crate::limits::{LONG_SPACE, SHORT_SPACE};

/// The header of a fragment (RFC 1990 section 3, with the class of RFC 2686 section 4).
#[derive(Clone, Copy, Debug, PartialEq, Eq)]
pub struct Header {
    /// The B bit: the fragment begins a packet.
    pub begin: bool,
    /// The E bit: the fragment ends a packet.
    pub end: bool,
    /// The class, below 16 in the long form and below 4 in the short one.
    pub class: u8,
    /// The number, of 24 bits in the long form and of 12 in the short one.
    pub number: u32,
}

/// Reads a header of the long form or of the short one, and says how many octets it has, 4 or 2. None exactly where
/// fewer came. Of the long form two bits are ignored.
pub fn read_header(short: bool, bytes: &[u8]) -> Option<(Header, usize)>
    ensures value { result ≡ header_of short bytes.now }
    ensures within { IfSome result (λ r. r.1 ≤ length bytes.now) }
    ensures fits { IfSome result (λ r. IsHeaderOf short r.0) }
{
    if short {
        let [a, b, ..] = bytes else {
            return None;
        };
        return Some((short_header(*a, *b), 2));
    }
    let [a, b, c, d, ..] = bytes else {
        return None;
    };
    Some((long_header(*a, *b, *c, *d), 4))
}

/// The header of two octets.
fn short_header(a: u8, b: u8) -> Header
    ensures { result ≡ spec.short_header a b }
{
    Header {
        begin: a >= 128,
        end: a % 128 >= 64,
        class: a / 16 % 4,
        number: u32::from(a % 16) * 256 + u32::from(b),
    }
}

/// The header of four octets.
fn long_header(a: u8, b: u8, c: u8, d: u8) -> Header
    ensures { result ≡ spec.long_header a b c d }
{
    Header {
        begin: a >= 128,
        end: a % 128 >= 64,
        class: a / 4 % 16,
        number: (u32::from(b) * 256 + u32::from(c)) * 256 + u32::from(d),
    }
}

/// The octets of a header of the long form.
pub(crate) fn long_octets(header: Header) -> [u8; 4]
    requires { IsHeaderOf false header }
    ensures { result ≡ header_octets false header }
{
    [
        flag(header.begin, 128) + flag(header.end, 64) + header.class * 4,
        (header.number / 65536) as u8,
        (header.number / 256 % 256) as u8,
        (header.number % 256) as u8,
    ]
}

/// The octets of a header of the short form.
pub(crate) fn short_octets(header: Header) -> [u8; 2]
    requires { IsHeaderOf true header }
    ensures { result ≡ header_octets true header }
{
    [
        flag(header.begin, 128)
            + flag(header.end, 64)
            + header.class * 16
            + (header.number / 256) as u8,
        (header.number % 256) as u8,
    ]
}

fn flag(is_set: bool, bit: u8) -> u8
    ensures { result ≡ spec.flag is_set bit }
{
    if is_set { bit } else { 0 }
}

/// How many numbers there are in a form.
pub(crate) fn space_of_form(short: bool) -> u32
    ensures { result ≡ space_of short }
{
    if short { SHORT_SPACE } else { LONG_SPACE }
}
