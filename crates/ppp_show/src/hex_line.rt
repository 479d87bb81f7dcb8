//! Lines of hex digits.

ghost use Rattle.std.specs.Prelude.{◌≡◌, IfOk, option_map};
ghost use Rattle.ppp_show.specs.HexLine.{octets_of_line};

use hex::FromHexError;
use ppp_memory::Memory;
use std::alloc::Global;

/// The octets of a line: two hex digits of either case each. None exactly where it isn't such pairs.
pub(crate) fn line_octets(alloc: Global, line: &[u8]) -> Result<Option<Vec<u8>>, Memory>
    ensures { IfOk result (λ octets. option_map (λ o. o.items) octets ≡ octets_of_line line.now) }
{
    match hex::decode(alloc, line) {
        Ok(octets) => Ok(Some(octets)),
        Err(FromHexError::OutOfMemory) => Err(Memory),
        Err(_) => Ok(None),
    }
}
