//! Lines of a text. A line ends with LF or CR LF, which the last one may lack; a last line without LF keeps its CR.

ghost use Rattle.std.specs.Prelude.{◌<◌, length};
ghost use Rattle.std.specs.Str.Lines.{StripsCarriageReturn};
ghost use Rattle.ppp_text.specs.Lines.{FirstLine};

use crate::split::split_once;

/// The first line of a text, without its end, and what stands behind that.
pub fn split_line(text: &[u8]) -> (&[u8], &[u8])
    requires { 0 < length text.now }
    ensures line { FirstLine text.now result.0.now result.1.now }
    ensures shorter { length result.1.now < length text.now }
{
    match split_once(text, b'\n') {
        Some((line, behind)) => (without_return(line), behind),
        None => (text, &[]),
    }
}

/// A line without the CR at its end, if it has one.
fn without_return(line: &[u8]) -> &[u8]
    ensures { StripsCarriageReturn line.now result.now }
{
    match line {
        [front @ .., b'\r'] => front,
        _ => line,
    }
}
