ghost use Rattle.std.specs.Prelude.{◌≡◌, ◌<◌, length};
ghost use Rattle.ppp_io.specs.Fault.{HasCause};
ghost use Rattle.ppp_io.specs.ReadGot.{ReadWithin, ReadTakes, faults_after_read};

use crate::read_got::ReadGot;
use crate::retry::retry_read;
use crate::source::Source;
use std::io::Read;
use std::marker::Model;

/// A source over a reader of std. It tells what its reader tells, which over a real file or socket is nothing.
/// A read that a signal interrupts is made again; the hundredth interruption in a row is a fault.
#[derive(Drop)]
pub struct StdSource<R: Read> {
    reader: R,
    faults: u64,
}

impl<R: Read> Model for StdSource<R> {
    ghost use Rattle.std.specs.Prelude.{◌≤◌};
    ghost use Rattle.ppp_io.specs.Fault.{greatest_count};
    ghost use Rattle.ppp_io.specs.StdDevice.{StdDevice};

    ghost Value = { StdDevice R };

    ghost view = { λ s. record { inner = s.reader; faults = s.faults } };

    ghost invariant = { λ s. s.faults ≤ greatest_count };
}

impl<R: Read> StdSource<R> {
    /// Reads from `reader`, and has counted no fault.
    pub fn new(reader: R) -> StdSource<R>
        ensures { result ≡ record { inner = reader; faults = 0 } }
    {
        StdSource { reader, faults: 0 }
    }

    /// How many reads failed, up to the greatest `u64`.
    pub fn faults(&self) -> u64
        ensures { result ≡ self.now.faults }
    {
        self.faults
    }
}

impl<R: Read> Source for StdSource<R> {
    ghost left = { λ s. R.remaining s.inner };

    ghost faults = { λ s. s.faults };

    // A reader that gives nothing has ended.
    fn read(&mut self, buf: &mut [u8]) -> ReadGot
        requires { 0 < length buf.old }
        ensures within { ReadWithin result buf.new }
        ensures octets { ReadTakes (R.remaining self.old.inner) (R.remaining self.new.inner)
            result buf.new }
        ensures cause { HasCause self.old.faults self.new.faults (result ≡ ReadGot.Failed) }
        ensures faults { self.new.faults ≡ faults_after_read result self.old.faults }
    {
        match retry_read(&mut self.reader, buf) {
            Ok(0) => ReadGot::End,
            Ok(count) => ReadGot::Got(count),
            Err(_) => {
                self.faults = self.faults.saturating_add(1);
                ReadGot::Failed
            }
        }
    }
}
