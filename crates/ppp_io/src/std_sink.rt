ghost use Rattle.std.specs.Prelude.{◌≡◌, ◌<◌, length, None};
ghost use Rattle.ppp_io.specs.Fault.{HasCause};
ghost use Rattle.ppp_io.specs.Wrote.{WriteWithin, WritePuts, WriterGets, faults_after_write};

use crate::retry::retry_write;
use crate::sink::Sink;
use crate::wrote::Wrote;
use std::io::Write;
use std::marker::Model;

/// A sink over a writer of std. As a sink it doesn't tell what it holds. A write that a signal interrupts is made again;
/// the hundredth interruption in a row is a fault.
#[derive(Drop)]
pub struct StdSink<W: Write> {
    writer: W,
    faults: u64,
}

impl<W: Write> Model for StdSink<W> {
    ghost use Rattle.std.specs.Prelude.{◌≤◌};
    ghost use Rattle.ppp_io.specs.Fault.{greatest_count};
    ghost use Rattle.ppp_io.specs.StdDevice.{StdDevice};

    ghost Value = { StdDevice W };

    ghost view = { λ s. record { inner = s.writer; faults = s.faults } };

    ghost invariant = { λ s. s.faults ≤ greatest_count };
}

impl<W: Write> StdSink<W> {
    /// Writes to `writer`, and has counted no fault.
    pub fn new(writer: W) -> StdSink<W>
        ensures { result ≡ record { inner = writer; faults = 0 } }
    {
        StdSink { writer, faults: 0 }
    }

    /// How many writes failed, up to the greatest `u64`.
    pub fn faults(&self) -> u64
        ensures { result ≡ self.now.faults }
    {
        self.faults
    }
}

impl<W: Write> Sink for StdSink<W> {
    ghost held = { λ _. None };

    ghost faults = { λ s. s.faults };

    // A writer that takes nothing has failed.
    fn write(&mut self, piece: &[u8]) -> Wrote
        requires { 0 < length piece.now }
        ensures within { WriteWithin result piece.now }
        ensures octets { WritePuts None None result piece.now }
        ensures cause { HasCause self.old.faults self.new.faults (result ≡ Wrote.Failed) }
        ensures faults { self.new.faults ≡ faults_after_write result self.old.faults }
        ensures writer { WriterGets (W.contents self.old.inner) (W.contents self.new.inner)
            result piece.now }
    {
        match retry_write(&mut self.writer, piece) {
            Ok(0) | Err(_) => {
                self.faults = self.faults.saturating_add(1);
                Wrote::Failed
            }
            Ok(count) => Wrote::Took(count),
        }
    }
}
