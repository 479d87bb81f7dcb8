//! What a frame that goes out carries.

ghost use Rattle.std.specs.Prelude.{◌≡◌, Some, option_map};
ghost use Rattle.ppp_frame.specs.FrameRef.{frame_ref_seen};
ghost use Rattle.ppp_party.specs.CarriedRead.{carried_seen};
ghost use Rattle.ppp_party.specs.Frame.{carried_by};

use crate::packet::{Packet, packet_of};
use ppp_frame::{Deframer, FrameRef};
use ppp_packet::Proto;

/// A packet of a control protocol.
#[derive(Drop)]
pub(crate) struct Carried<'a> {
    pub(crate) proto: Proto,
    pub(crate) packet: Packet<'a>,
}

/// What the frame carries that a reader lends, if that is a packet of a control protocol.
pub(crate) fn lent_carried(reader: &Deframer) -> Option<Carried<'_>>
    ensures { option_map carried_seen result ≡ carried_by reader.now.frame }
{
    if reader.has_frame() {
        carried_in(reader.frame())
    } else {
        None
    }
}

/// What a frame carries.
fn carried_in(frame: FrameRef<'_>) -> Option<Carried<'_>>
    ensures { option_map carried_seen result ≡ carried_by (Some (frame_ref_seen frame.entry)) }
{
    let proto = Proto::try_from(frame.protocol).ok()?;
    let packet = packet_of(frame.info)?;
    Some(Carried { proto, packet })
}
