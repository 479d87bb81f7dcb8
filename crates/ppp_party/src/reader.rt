//! The reading of frames that go out.

ghost use Rattle.std.specs.Prelude.{◌≡◌, IfOk};
ghost use Rattle.ppp_link.specs.declared.link.TheConstants.{MOST_FRAME};
ghost use Rattle.ppp_party.specs.Reader.{IsOpen};
ghost use Rattle.ppp_trunk.specs.Orders.{read_in};

use ppp_frame::{Deframer, FLAG};
use ppp_link::MOST_FRAME;
use ppp_memory::Memory;
use std::alloc::Global;

/// A deframer that reads both short headers, whatever is granted at the moment.
pub(crate) fn make_reader(alloc: Global) -> Result<Deframer, Memory>
    ensures { IfOk result IsOpen }
{
    let mut reader = Deframer::new(alloc, MOST_FRAME)?;
    reader.set_short(true, true);
    Ok(reader)
}

/// Reads the octets of a frame, which the reader lends then, if they are one.
pub(crate) fn read(reader: &mut Deframer, octets: &[u8])
    requires { IsOpen reader.old }
    ensures open { IsOpen reader.new }
    ensures frame { reader.new.frame ≡ read_in octets.now }
{
    reader.feed(&[FLAG]);
    reader.feed(octets);
}
