//! Endpoint discriminators as texts.

ghost use Rattle.std.specs.Prelude.{◌≡◌, ◌<◌, ◌≤◌, ℕ, slice_index, true, option_map, IfSome, IsTrue};
ghost use Rattle.ppp_packet.specs.DiscClass.{is_good_disc};
ghost use Rattle.ppp_conf.specs.DiscText.{disc_by, disc_of, disc_seen};

use crate::hex_text::read_octets;
use ppp_packet::{Disc, DiscClass};

/// An endpoint discriminator: its Class's digit, `:`, and its address in digits.
#[tactic(auto, unfolding(crate::specs::DiscText::disc_of))]
pub(crate) fn read_disc(text: &[u8]) -> Option<Disc>
    ensures value { option_map disc_seen result ≡ disc_of text.now }
    ensures good { IfSome result (λ disc. is_good_disc disc.class disc.size ≡ true) }
    ensures octets { IfSome result (λ disc. (i : ℕ) → slice_index disc.address i < 256) }
{
    match text {
        [digit, b':', digits @ ..] if b'0' <= *digit => disc_by(*digit - b'0', digits),
        _ => None,
    }
}

/// A discriminator of this Class with this address in digits.
fn disc_by(class: u8, digits: &[u8]) -> Option<Disc>
    ensures value { option_map disc_seen result ≡ disc_by class digits.now }
    ensures good { IfSome result (λ disc. is_good_disc disc.class disc.size ≡ true) }
    ensures octets { IfSome result (λ disc. (i : ℕ) → slice_index disc.address i < 256) }
{
    let size = digits.len() / 2;
    if !is_good(class, size) {
        return None;
    }
    let mut octets = [0; 20];
    if read_octets(digits, &mut octets[..size]) {
        Some(Disc::new(class, &octets[..size]))
    } else {
        None
    }
}

/// Whether a discriminator of this Class may have an address of this size.
fn is_good(class: u8, size: usize) -> bool
    ensures good { result ≡ is_good_disc class size }
    ensures within { IsTrue result → size ≤ 20 }
{
    match DiscClass::try_from(class) {
        Ok(class) => class.has_size(size),
        Err(_) => false,
    }
}
