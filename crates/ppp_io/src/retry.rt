//! Calls of std that a signal may interrupt.

ghost use Rattle.std.specs.Prelude.{◌↔◌, IsTrue};
ghost use Rattle.std.specs.Io.{ReadsAtMost, WritesAtMost};
ghost use Rattle.std.specs.Io.KnownBytes.{ReadConsumes, WriteAppends};
ghost use Rattle.ppp_io.specs.Retry.{IsInterrupted};

use std::io;
use std::io::{Error, ErrorKind, Read, Write};

/// How often a call is made that is interrupted each time. The last interruption is its error.
pub(crate) const TRIES: u32 = 100;

/// Reads once, and again as long as it is interrupted.
pub(crate) fn retry_read<R: Read>(reader: &mut R, buf: &mut [u8]) -> io::Result<usize>
    ensures bound { ReadsAtMost result buf.new }
    ensures octets { ReadConsumes (R.remaining reader.old) (R.remaining reader.new)
        result buf.new }
{
    'tries: for _ in 0..TRIES {
        let answer = reader.read(buf);
        if !is_interrupted(&answer) {
            return answer;
        }
    }
    Err(Error::from(ErrorKind::Interrupted))
}

/// Writes once, and again as long as it is interrupted.
pub(crate) fn retry_write<W: Write>(writer: &mut W, piece: &[u8]) -> io::Result<usize>
    ensures bound { WritesAtMost result piece.now }
    ensures octets { WriteAppends (W.contents writer.old) (W.contents writer.new)
        result piece.now }
{
    'tries: for _ in 0..TRIES {
        let answer = writer.write(piece);
        if !is_interrupted(&answer) {
            return answer;
        }
    }
    Err(Error::from(ErrorKind::Interrupted))
}

/// Whether a call was interrupted, which alone makes it worth another.
fn is_interrupted(answer: &io::Result<usize>) -> bool
    ensures { IsTrue result ↔ IsInterrupted answer.now }
{
    match answer {
        Ok(_) => false,
        Err(error) => error.kind() == ErrorKind::Interrupted,
    }
}
