//! Eight octets at once, as the lanes of a vector.

ghost use Rattle.std.specs.Prelude.{◌≡◌, ◌+◌, ◌<◌, ◌≤◌, ◌++◌, length, map, replicate, slice_index, if◌then◌else◌};
ghost use Rattle.std.specs.Simd.Lanes.{mask_l, put_chunk};
ghost use Rattle.ppp_frame.specs.Escapes.{is_escape};
ghost use Rattle.ppp_frame.specs.Lanes.{row_of, turned};

use crate::escapes::{ESCAPE, TOGGLE};
use crate::place_table::PLACES;
use std::simd::prelude::*;

/// Eight octets, and eight zeros behind them.
#[inline(always)]
pub(crate) fn loaded(eight: &[u8]) -> u8x16
    requires { length eight.now ≡ 8 }
    ensures { result ≡ eight.now ++ replicate 8 0 }
{
    u8x8::from_slice(eight).shuffle(
        u8x8::splat(0),
        [0, 1, 2, 3, 4, 5, 6, 7, 8, 9, 10, 11, 12, 13, 14, 15],
    )
}

/// Bit n says that lane n is an escape.
#[inline(always)]
pub(crate) fn escapes_in(octets: u8x16) -> u64
    ensures bits { result ≡ mask_l (map is_escape octets) }
    ensures small { result < 65536 }
{
    octets.simd_eq(u8x16::splat(ESCAPE)).to_bitmask()
}

/// The octets, changed where the octet before them is an escape; before the first stands what `escaped` says.
#[inline(always)]
pub(crate) fn turned_lanes(escaped: bool, octets: u8x16) -> u8x16
    ensures { result ≡ turned escaped octets }
{
    let first = u8x16::splat(toggle_behind(escaped));
    let others = octets
        .simd_eq(u8x16::splat(ESCAPE))
        .select(u8x16::splat(TOGGLE), u8x16::splat(0));
    octets
        ^ first.shuffle(
            others,
            [
                15, 16, 17, 18, 19, 20, 21, 22, 23, 24, 25, 26, 27, 28, 29, 30,
            ],
        )
}

/// What changes an octet, where the one before it was an escape or not.
#[inline(always)]
fn toggle_behind(escaped: bool) -> u8
    ensures { result ≡ (if escaped then TOGGLE else 0) }
{
    if escaped { TOGGLE } else { 0 }
}

/// The lanes whose bits `gone` hasn't, in order, and others behind them.
#[inline(always)]
pub(crate) fn remaining_lanes(octets: u8x16, gone: u64) -> u8x8
    requires { gone < 256 }
    ensures { result ≡ map (λ k. slice_index octets k) (row_of gone) }
{
    octets
        .swizzle_dyn(loaded(&PLACES[gone as usize]))
        .extract::<0, 8>()
}

/// Stores eight octets in `room`, from `at` on.
#[inline(always)]
pub(crate) fn store(room: &mut [u8], at: usize, octets: u8x8)
    requires { at + 8 ≤ length room.old }
    ensures { room.new ≡ put_chunk at room.old octets }
{
    octets.copy_to_slice(&mut room[at..]);
}
