//! The octets that stand for octets between two flags (RFC 1662 section 4.2).

ghost use Rattle.std.specs.Prelude.{◌≡◌, ◌+◌, ◌*◌, ◌≤◌, ◌<◌, ◌++◌, ◌%◌, ◌==◌, if◌then◌else◌, length, take, bit_xor};
ghost use Rattle.std.specs.List.{list_any};
ghost use Rattle.ppp_frame.specs.Escapes.{escaped_after, is_escape, is_special, must_escape, opens as opens_escape, stuffed, unstuffed};

use crate::lanes::{escapes_in, loaded, remaining_lanes, store, turned_lanes};
use crate::spelling::Spelling;

/// The octet between two frames (RFC 1662 section 3.1).
pub const FLAG: u8 = 0x7e;

/// The octet before one that was changed (RFC 1662 section 4.2).
pub const ESCAPE: u8 = 0x7d;

/// What is added to an octet behind an escape, bit by bit.
pub const TOGGLE: u8 = 0x20;

/// How many octets are looked at together, and copied where each of them stands for itself.
const BLOCK: usize = 32;

/// A sender escapes this octet under this map: a flag, an escape, or one below 20 whose bit the map has.
#[tactic(auto, unfolding(crate::specs::Escapes::must_escape))]
pub(crate) fn is_escaped(map: u32, octet: u8) -> bool
    ensures { result ≡ must_escape map octet }
{
    octet == ESCAPE || octet == FLAG || (octet < 0x20 && (map >> octet) % 2 == 1)
}

/// Writes `octets` into `room` from `at` on, as a sender spells them, and answers where they end.
pub(crate) fn stuff(room: &mut [u8], at: usize, spelling: &Spelling, octets: &[u8]) -> usize
    requires { at + 2 * length octets.now ≤ length room.old }
    ensures end { result ≡ at + length (stuffed spelling.now.map octets.now) }
    ensures within { result ≤ at + 2 * length octets.now }
    ensures written { take result room.new
        ≡ take at room.old ++ stuffed spelling.now.map octets.now }
{
    let mut end = at;
    let mut rest = octets;
    'whole: while rest.len() >= BLOCK {
        let (block, more) = rest.split_at(BLOCK);
        end = stuff_block(room, end, spelling, block);
        rest = more;
    }
    stuff_each(room, end, spelling, rest)
}

#[inline(always)]
fn stuff_block(room: &mut [u8], at: usize, spelling: &Spelling, block: &[u8]) -> usize
    requires { at + 2 * length block.now ≤ length room.old }
    ensures end { result ≡ at + length (stuffed spelling.now.map block.now) }
    ensures within { result ≤ at + 2 * length block.now }
    ensures written { take result room.new
        ≡ take at room.old ++ stuffed spelling.now.map block.now }
{
    if has_special(lowest_plain(spelling.map), block) {
        return stuff_each(room, at, spelling, block);
    }
    copy_block(room, at, block);
    at + block.len()
}

#[inline(always)]
fn stuff_each(room: &mut [u8], at: usize, spelling: &Spelling, octets: &[u8]) -> usize
    requires { at + 2 * length octets.now ≤ length room.old }
    ensures end { result ≡ at + length (stuffed spelling.now.map octets.now) }
    ensures within { result ≤ at + 2 * length octets.now }
    ensures written { take result room.new
        ≡ take at room.old ++ stuffed spelling.now.map octets.now }
{
    let mut end = at;
    for octet in octets {
        let pair = spelling.pair(*octet);
        room[end] = (pair % 256) as u8;
        room[end + 1] = (pair / 256) as u8;
        end += width(pair);
    }
    end
}

/// The lowest octet that a map leaves alone for certain: 0 where it has no bit.
fn lowest_plain(map: u32) -> u8
    ensures { result ≡ (if map == 0 then 0 else 0x20) }
{
    if map == 0 { 0 } else { 0x20 }
}

/// One of the octets is a flag, an escape, or lower than this.
#[inline(always)]
fn has_special(low: u8, block: &[u8]) -> bool
    ensures { result ≡ list_any (is_special low) block.now }
{
    let mut found = false;
    for octet in block {
        found |= (*octet == ESCAPE) | (*octet == FLAG) | (*octet < low);
    }
    found
}

/// How many octets of a pair stand in the frame.
#[inline(always)]
fn width(pair: u16) -> usize
    ensures { result ≡ (if pair % 256 == ESCAPE then 2 else 1) }
{
    if pair % 256 == ESCAPE as u16 { 2 } else { 1 }
}

/// Writes what is read of `run` into `room` from `at` on, where the octet before it was an escape or not. It answers where
/// that ends, and whether the last octet was an escape.
pub(crate) fn unstuff(room: &mut [u8], at: usize, escaped: bool, run: &[u8]) -> (usize, bool)
    requires { at + length (unstuffed escaped run.now) + 8 ≤ length room.old }
    ensures end { result.0 ≡ at + length (unstuffed escaped run.now) }
    ensures escaped { result.1 ≡ escaped_after escaped run.now }
    ensures written { take result.0 room.new ≡ take at room.old ++ unstuffed escaped run.now }
{
    let mut end = at;
    let mut behind = escaped;
    let mut rest = run;
    'whole: while rest.len() >= BLOCK {
        let (block, more) = rest.split_at(BLOCK);
        (end, behind) = unstuff_block(room, end, behind, block);
        rest = more;
    }
    unstuff_eights(room, end, behind, rest)
}

#[inline(always)]
fn unstuff_block(room: &mut [u8], at: usize, escaped: bool, block: &[u8]) -> (usize, bool)
    requires { at + length (unstuffed escaped block.now) + 8 ≤ length room.old }
    ensures end { result.0 ≡ at + length (unstuffed escaped block.now) }
    ensures escaped { result.1 ≡ escaped_after escaped block.now }
    ensures written { take result.0 room.new
        ≡ take at room.old ++ unstuffed escaped block.now }
{
    if escaped || has_escape(block) {
        return unstuff_eights(room, at, escaped, block);
    }
    copy_block(room, at, block);
    (at + block.len(), false)
}

#[inline(always)]
fn unstuff_eights(room: &mut [u8], at: usize, escaped: bool, run: &[u8]) -> (usize, bool)
    requires { at + length (unstuffed escaped run.now) + 8 ≤ length room.old }
    ensures end { result.0 ≡ at + length (unstuffed escaped run.now) }
    ensures escaped { result.1 ≡ escaped_after escaped run.now }
    ensures written { take result.0 room.new ≡ take at room.old ++ unstuffed escaped run.now }
{
    let mut end = at;
    let mut behind = escaped;
    let mut rest = run;
    'eights: while rest.len() >= 8 {
        let (eight, more) = rest.split_at(8);
        (end, behind) = unstuff_eight(room, end, behind, eight);
        rest = more;
    }
    unstuff_each(room, end, behind, rest)
}

/// Eight octets at once where no escape stands behind an escape, as in what a sender writes.
#[inline(always)]
fn unstuff_eight(room: &mut [u8], at: usize, escaped: bool, eight: &[u8]) -> (usize, bool)
    requires eight { length eight.now ≡ 8 }
    requires room { at + length (unstuffed escaped eight.now) + 8 ≤ length room.old }
    ensures end { result.0 ≡ at + length (unstuffed escaped eight.now) }
    ensures escaped { result.1 ≡ escaped_after escaped eight.now }
    ensures written { take result.0 room.new
        ≡ take at room.old ++ unstuffed escaped eight.now }
{
    let octets = loaded(eight);
    let escapes = escapes_in(octets);
    let before = 2 * escapes + carried(escaped);
    if escapes & before != 0 {
        return unstuff_each(room, at, escaped, eight);
    }
    store(
        room,
        at,
        remaining_lanes(turned_lanes(escaped, octets), escapes),
    );
    (at + 8 - escapes.count_ones() as usize, before >= 256)
}

#[inline(always)]
fn unstuff_each(room: &mut [u8], at: usize, escaped: bool, run: &[u8]) -> (usize, bool)
    requires { at + length (unstuffed escaped run.now) < length room.old }
    ensures end { result.0 ≡ at + length (unstuffed escaped run.now) }
    ensures escaped { result.1 ≡ escaped_after escaped run.now }
    ensures written { take result.0 room.new ≡ take at room.old ++ unstuffed escaped run.now }
{
    let mut end = at;
    let mut behind = escaped;
    for octet in run {
        let octet = *octet;
        room[end] = as_read(behind, octet);
        behind = opens(behind, octet);
        end += kept(behind);
    }
    (end, behind)
}

/// One of the octets is an escape.
#[inline(always)]
fn has_escape(block: &[u8]) -> bool
    ensures { result ≡ list_any is_escape block.now }
{
    let mut found = false;
    for octet in block {
        found |= *octet == ESCAPE;
    }
    found
}

/// Copies the octets into `room`, from `at` on.
#[inline(always)]
fn copy_block(room: &mut [u8], at: usize, block: &[u8])
    requires { at + length block.now ≤ length room.old }
    ensures { take (at + length block.now) room.new ≡ take at room.old ++ block.now }
{
    room[at..at + block.len()].copy_from_slice(block);
}

/// The number of octets that are read of `run`.
pub(crate) fn plain_len(escaped: bool, run: &[u8]) -> usize
    ensures { result ≡ length (unstuffed escaped run.now) }
{
    let mut size = 0;
    let mut behind = escaped;
    for octet in run {
        behind = opens(behind, *octet);
        size += kept(behind);
    }
    size
}

/// The last octet of `run` is an escape, or the octet before `run` where that is empty.
pub(crate) fn ends_escaped(escaped: bool, run: &[u8]) -> bool
    ensures { result ≡ escaped_after escaped run.now }
{
    let mut behind = escaped;
    for octet in run {
        behind = opens(behind, *octet);
    }
    behind
}

/// The octet opens an escape.
#[inline(always)]
fn opens(escaped: bool, octet: u8) -> bool
    ensures { result ≡ opens_escape escaped octet }
{
    !escaped & (octet == ESCAPE)
}

/// The octet, changed where it stands behind an escape.
#[inline(always)]
fn as_read(escaped: bool, octet: u8) -> u8
    ensures { result ≡ (if escaped then bit_xor octet TOGGLE else octet) }
{
    if escaped { octet ^ TOGGLE } else { octet }
}

/// The bit before the first octet's.
#[inline(always)]
fn carried(escaped: bool) -> u64
    ensures { result ≡ (if escaped then 1 else 0) }
{
    if escaped { 1 } else { 0 }
}

/// How many octets are read of one that opens an escape or not.
#[inline(always)]
fn kept(opens: bool) -> usize
    ensures { result ≡ (if opens then 0 else 1) }
{
    if opens { 0 } else { 1 }
}
