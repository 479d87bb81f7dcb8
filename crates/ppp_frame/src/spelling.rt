//! How a sender spells each octet under one map.

ghost use Rattle.std.specs.Prelude.{◌≡◌, ◌<◌, length};
ghost use Rattle.ppp_frame.specs.Spelling.{pair_of, pairs_of};

use crate::escapes::{ESCAPE, TOGGLE, is_escaped};

/// The octets that stand for each octet, as a table that is made anew only when the map changes. Each entry is the first
/// octet, and times 256 the one behind an escape.
#[derive(Drop)]
pub(crate) struct Spelling {
    pub(crate) map: u32,
    pub(crate) pairs: [u16; 256],
    ghost is_table: { pairs ≡ pairs_of map 256 },
}

impl Spelling {
    /// The table for this map.
    pub(crate) fn new(map: u32) -> Spelling
        ensures { result.map ≡ map }
    {
        let mut pairs = [0; 256];
        for octet in 0..256 {
            pairs[octet] = make_pair(map, octet as u8);
        }
        Spelling { map, pairs }
    }

    /// The entry of an octet.
    #[inline(always)]
    pub(crate) fn pair(&self, octet: u8) -> u16
        ensures { result ≡ pair_of self.now.map octet }
    {
        self.pairs[octet as usize]
    }
}

fn make_pair(map: u32, octet: u8) -> u16
    ensures { result ≡ pair_of map octet }
{
    if is_escaped(map, octet) {
        ESCAPE as u16 + (octet ^ TOGGLE) as u16 * 256
    } else {
        octet as u16
    }
}
