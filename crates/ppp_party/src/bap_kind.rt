//! What a frame of BAP is.

ghost use Rattle.std.specs.Prelude.{◌≡◌, Some};
ghost use Rattle.ppp_frame.specs.FrameRef.{frame_ref_seen};
ghost use Rattle.ppp_party.specs.BapSpans.{bap_kind_by, bap_kind_in, kind_of_type};

use crate::about::PacketKind;
use ppp_bap::PacketType;
use ppp_frame::{Deframer, FrameRef};
use ppp_trunk::BAP;

/// What kind of BAP's packets the frame carries that a reader lends, if that is one (RFC 2125).
pub(crate) fn lent_bap_kind(reader: &Deframer) -> Option<PacketKind>
    ensures { result ≡ bap_kind_by reader.now.frame }
{
    if reader.has_frame() {
        bap_kind_in(reader.frame())
    } else {
        None
    }
}

/// What kind of BAP's packets a frame carries.
fn bap_kind_in(frame: FrameRef<'_>) -> Option<PacketKind>
    ensures { result ≡ bap_kind_by (Some (frame_ref_seen frame.entry)) }
{
    if frame.protocol != BAP {
        return None;
    }
    let kind = PacketType::read(*frame.info.first()?)?;
    Some(kind_of_type(kind))
}

/// The kind of a Type: the Call-Status packets are neither requests nor answers here.
fn kind_of_type(kind: PacketType) -> PacketKind
    ensures { result ≡ kind_of_type kind }
{
    match kind {
        PacketType::CallRequest | PacketType::CallbackRequest | PacketType::DropRequest => {
            PacketKind::Request
        }
        PacketType::CallResponse | PacketType::CallbackResponse | PacketType::DropResponse => {
            PacketKind::Answer
        }
        PacketType::StatusIndication | PacketType::StatusResponse => PacketKind::Other,
    }
}
