//! A text of hex lines, shown.

ghost use Rattle.std.specs.Prelude.{◌≡◌, ◌-◌, ◌^◌, ◌<◌, length, Ok, IfOk, IfErr};
ghost use Rattle.ppp_show.specs.ShowFault.{IsRefusal};
ghost use Rattle.ppp_show.specs.Stream.{show_of};

use crate::hex_line::line_octets;
use crate::show_fault::ShowFault;
use crate::shown::Shown;
use ppp_text::split_line;
use std::alloc::Global;

/// Shows what a stream of octets holds: a line `frame PPPP INFO` for each frame, with what its packet is where it is one of
/// a control protocol, and a line `discard WHY` for each piece that is none. The text has the stream in hex lines of any
/// length, so a line's end may cut a frame, or an escape; empty lines have no octets. Lines end with LF or CR LF, which the
/// last one may lack.
///
/// The first line is refused that isn't pairs of hex digits of either case, and nothing is shown then.
pub fn show_stream(alloc: Global, text: &[u8]) -> Result<Vec<u8>, ShowFault>
    requires { length text.now < 2 ^ 32 - 1 }
    ensures ok { IfOk result (λ octets. show_of text.now ≡ Ok octets.items) }
    ensures refused { IfErr result (IsRefusal (show_of text.now)) }
{
    let mut shown = Shown::new(alloc)?;
    let mut number: u32 = 1;
    let mut rest = text;
    'lines: while !rest.is_empty() {
        let (line, behind) = split_line(rest);
        let Some(octets) = line_octets(alloc, line)? else {
            return Err(ShowFault::Line(number));
        };
        shown.take(&octets)?;
        number += 1;
        rest = behind;
    }
    Ok(shown.into_octets())
}
