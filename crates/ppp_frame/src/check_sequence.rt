//! The frame check sequence of 16 bits (RFC 1662 section 3.1 and appendix C.2).

ghost use Rattle.std.specs.Prelude.{◌≡◌, ◌∷◌, [], bit_xor};
ghost use Rattle.ppp_frame.specs.Fcs.{fcs_of, fcs_run, shifted_by};

use crate::fcs_table::AFTER;

/// The running value before the first octet.
pub(crate) const START: u16 = 0xffff;

/// The running value after octets and their own check sequence.
pub(crate) const GOOD: u16 = 0xf0b8;

/// The check sequence of `octets`: the complement of the running value after them (RFC 1662 appendix C.2). A sender
/// writes it behind them, the low octet first. It takes no memory.
pub fn fcs(octets: &[u8]) -> u16
    ensures { result ≡ fcs_of octets.now }
{
    after_octets(START, octets) ^ 0xffff
}

/// The running value `fcs` after `octets`.
pub(crate) fn after_octets(fcs: u16, octets: &[u8]) -> u16
    ensures { result ≡ fcs_run fcs octets.now }
{
    let mut running = fcs;
    let mut rest = octets;
    'eights: while let [a, b, c, d, e, f, g, h, more @ ..] = rest {
        running = after_eight(running, *a, *b, *c, *d, *e, *f, *g, *h);
        rest = more;
    }
    after_seven(running, rest)
}

/// The same, where fewer than eight octets are expected.
#[inline(always)]
fn after_seven(fcs: u16, octets: &[u8]) -> u16
    ensures { result ≡ fcs_run fcs octets.now }
{
    match octets {
        [a, b, c, d, more @ ..] => after_three(after_four(fcs, *a, *b, *c, *d), more),
        _ => after_three(fcs, octets),
    }
}

/// The same, where fewer than four octets are expected.
#[inline(always)]
fn after_three(fcs: u16, octets: &[u8]) -> u16
    ensures { result ≡ fcs_run fcs octets.now }
{
    match octets {
        [a, b, more @ ..] => after_each(after_two(fcs, *a, *b), more),
        _ => after_each(fcs, octets),
    }
}

/// The same, octet by octet.
#[inline(always)]
fn after_each(fcs: u16, octets: &[u8]) -> u16
    ensures { result ≡ fcs_run fcs octets.now }
{
    let mut running = fcs;
    for octet in octets {
        running = after_octet(running, *octet);
    }
    running
}

/// The running value after one more octet.
#[inline(always)]
fn after_octet(fcs: u16, octet: u8) -> u16
    ensures { result ≡ fcs_run fcs (octet ∷ []) }
{
    (fcs >> 8) ^ shifted_1((fcs % 256) as u8 ^ octet)
}

/// The running value after two more octets, both of which meet the running value.
#[inline(always)]
fn after_two(fcs: u16, a: u8, b: u8) -> u16
    ensures { result ≡ fcs_run fcs (a ∷ b ∷ []) }
{
    let low = (fcs % 256) as u8 ^ a;
    let high = (fcs >> 8) as u8 ^ b;
    shifted_2(low) ^ shifted_1(high)
}

/// The running value after four more octets. Only the first two meet the running value, so the other two come first.
#[inline(always)]
fn after_four(fcs: u16, a: u8, b: u8, c: u8, d: u8) -> u16
    ensures { result ≡ fcs_run fcs (a ∷ b ∷ c ∷ d ∷ []) }
{
    let free = shifted_2(c) ^ shifted_1(d);
    let low = (fcs % 256) as u8 ^ a;
    let high = (fcs >> 8) as u8 ^ b;
    shifted_4(low) ^ shifted_3(high) ^ free
}

/// The running value after eight more octets. Only the first two meet the running value, so the other six come first.
#[inline(always)]
fn after_eight(fcs: u16, a: u8, b: u8, c: u8, d: u8, e: u8, f: u8, g: u8, h: u8) -> u16
    ensures { result ≡ fcs_run fcs (a ∷ b ∷ c ∷ d ∷ e ∷ f ∷ g ∷ h ∷ []) }
{
    let free = shifted_6(c)
        ^ shifted_5(d)
        ^ shifted_4(e)
        ^ shifted_3(f)
        ^ shifted_2(g)
        ^ shifted_1(h);
    let low = (fcs % 256) as u8 ^ a;
    let high = (fcs >> 8) as u8 ^ b;
    shifted_8(low) ^ shifted_7(high) ^ free
}

#[inline(always)]
fn shifted_1(octet: u8) -> u16
    ensures { result ≡ shifted_by 1 octet }
{
    AFTER[0][octet as usize]
}

#[inline(always)]
fn shifted_2(octet: u8) -> u16
    ensures { result ≡ shifted_by 2 octet }
{
    AFTER[1][octet as usize]
}

#[inline(always)]
fn shifted_3(octet: u8) -> u16
    ensures { result ≡ shifted_by 3 octet }
{
    AFTER[2][octet as usize]
}

#[inline(always)]
fn shifted_4(octet: u8) -> u16
    ensures { result ≡ shifted_by 4 octet }
{
    AFTER[3][octet as usize]
}

#[inline(always)]
fn shifted_5(octet: u8) -> u16
    ensures { result ≡ shifted_by 5 octet }
{
    AFTER[4][octet as usize]
}

#[inline(always)]
fn shifted_6(octet: u8) -> u16
    ensures { result ≡ shifted_by 6 octet }
{
    AFTER[5][octet as usize]
}

#[inline(always)]
fn shifted_7(octet: u8) -> u16
    ensures { result ≡ shifted_by 7 octet }
{
    AFTER[6][octet as usize]
}

#[inline(always)]
fn shifted_8(octet: u8) -> u16
    ensures { result ≡ shifted_by 8 octet }
{
    AFTER[7][octet as usize]
}
