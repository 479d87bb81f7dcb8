//! Numbers in the bodies of options, the highest octet first, and numbers that are drawn.

ghost use Rattle.std.specs.Prelude.{◌≡◌, length};
ghost use Rattle.ppp_packet.specs.Options.{option_with};
ghost use Rattle.ppp_packet.specs.Packet.{two_octets};
ghost use Rattle.ppp_auto.specs.Taken.{four_octets};
ghost use Rattle.ppp_options.specs.Number as spec;
ghost use Rattle.ppp_options.specs.declared.number.TheConstants.{OCTETS_U16, OCTETS_U32, OCTETS_U64};

use byteorder::{BigEndian, ByteOrder};
use ppp_packet::Opt;

/// The octets of a `u16`.
pub const OCTETS_U16: usize = 2;

/// The octets of a `u32`.
pub const OCTETS_U32: usize = 4;

/// The octets of a `u64`.
pub const OCTETS_U64: usize = 8;

/// A number in two octets.
pub fn octets_u16(n: u16) -> [u8; 2]
    ensures { result ≡ two_octets n }
{
    let mut octets = [0; OCTETS_U16];
    BigEndian::write_u16(&mut octets, n);
    octets
}

/// A number in four octets.
pub fn octets_u32(n: u32) -> [u8; 4]
    ensures { result ≡ four_octets n }
{
    let mut octets = [0; OCTETS_U32];
    BigEndian::write_u32(&mut octets, n);
    octets
}

/// A number in eight octets.
pub fn octets_u64(n: u64) -> [u8; 8]
    ensures { result ≡ spec.eight_octets n }
{
    let mut octets = [0; OCTETS_U64];
    BigEndian::write_u64(&mut octets, n);
    octets
}

/// The number in two octets.
pub fn number_u16(body: &[u8]) -> u16
    requires { length body.now ≡ OCTETS_U16 }
    ensures { result ≡ spec.number body.now }
{
    BigEndian::read_u16(body)
}

/// The number in four octets.
pub fn number_u32(body: &[u8]) -> u32
    requires { length body.now ≡ OCTETS_U32 }
    ensures { result ≡ spec.number body.now }
{
    BigEndian::read_u32(body)
}

/// The number in eight octets.
pub fn number_u64(body: &[u8]) -> u64
    requires { length body.now ≡ OCTETS_U64 }
    ensures { result ≡ spec.number body.now }
{
    BigEndian::read_u64(body)
}

/// Whether a number is neither 0 nor the one to avoid.
pub fn is_free(avoid: u64, n: u64) -> bool
    ensures { result ≡ spec.is_free avoid n }
{
    n != 0 && n != avoid
}

/// Whether a body has four octets whose number is neither 0 nor the one to avoid.
pub fn is_new_u32(avoid: u32, body: &[u8]) -> bool
    ensures { result ≡ spec.is_new OCTETS_U32 avoid body.now }
{
    body.len() == OCTETS_U32 && is_free(avoid.into(), number_u32(body).into())
}

/// The same of eight octets.
pub fn is_new_u64(avoid: u64, body: &[u8]) -> bool
    ensures { result ≡ spec.is_new OCTETS_U64 avoid body.now }
{
    body.len() == OCTETS_U64 && is_free(avoid, number_u64(body))
}

/// Whether a body has two octets whose number is in a range, both ends in it.
pub fn is_within_u16(least: u16, most: u16, body: &[u8]) -> bool
    ensures { result ≡ spec.is_within OCTETS_U16 least most body.now }
{
    body.len() == OCTETS_U16 && (least..=most).contains(&number_u16(body))
}

/// A number of 32 bits drawn from a word: its low 32 bits, or one of the next two numbers where these are 0 or the one
/// to avoid.
pub fn pick(word: u64, avoid: u32) -> u32
    ensures { result ≡ spec.pick word avoid }
{
    let first = (word % (1 << 32)) as u32;
    let second = first.wrapping_add(1);
    if is_free(avoid.into(), first.into()) {
        first
    } else if is_free(avoid.into(), second.into()) {
        second
    } else {
        first.wrapping_add(2)
    }
}

/// The same of 64 bits.
pub fn pick64(word: u64, avoid: u64) -> u64
    ensures { result ≡ spec.pick64 word avoid }
{
    let second = word.wrapping_add(1);
    if is_free(avoid, word) {
        word
    } else if is_free(avoid, second) {
        second
    } else {
        word.wrapping_add(2)
    }
}

/// The option after a Configure-Nak of a number that two ends are not to have alike: the other number, where it is
/// neither 0 nor the last one, and else a drawn one. A body of another length changes nothing.
pub fn number_taken(kind: u8, last: &[u8], nak: &[u8], word: u64) -> Opt
    requires { length last.now ≡ OCTETS_U32 }
    ensures { result ≡ option_with kind (spec.number_taken last.now nak.now word) }
{
    let own = number_u32(last);
    if nak.len() != OCTETS_U32 {
        Opt::new(kind, last)
    } else if is_free(own.into(), number_u32(nak).into()) {
        Opt::new(kind, nak)
    } else {
        Opt::new(kind, &octets_u32(pick(word, own)))
    }
}
