//! A buffer for one frame, and what writes it.

ghost use Rattle.std.specs.Prelude.{◌≡◌, ◌+◌, ◌*◌, ◌<◌, ◌≤◌, ◌↔◌, ◌∷◌, ◌++◌, [], length, take, IfOk, IsErr, OnOk, OnErr};
ghost use Rattle.ppp_frame.specs.Escapes.{stuffed};
ghost use Rattle.ppp_frame.specs.Fcs.{checked};
ghost use Rattle.ppp_frame.specs.Frame.{enc};

use crate::check_sequence::{START, after_octets};
use crate::escapes::{FLAG, stuff};
use crate::form::Form;
use crate::header::make_header;
use crate::spelling::Spelling;
use crate::too_long::TooLong;
use ppp_memory::Memory;
use std::alloc::Global;
use std::marker::Model;

/// The most octets of information in a frame.
pub const MOST_INFO: usize = 8192;

/// The octets of a buffer: two flags, and header, information and check sequence with each octet escaped, fit.
pub const ROOM: usize = 16512;

/// A buffer that holds one frame, flags and all, and is seen as its octets.
#[derive(Drop)]
pub struct FrameBuf {
    room: Vec<u8>,
    len: usize,
    spelling: Spelling,
}

impl Model for FrameBuf {
    ghost use Rattle.std.specs.Prelude.{ℕ, List};
    ghost use Rattle.ppp_frame.specs.FrameBuf.{frame_seen, IsFrameBuf};

    ghost Value = { List ℕ };

    ghost view = { frame_seen };

    ghost invariant = { IsFrameBuf };
}

impl FrameBuf {
    /// A buffer that holds no octet. It takes 16,512 octets of memory, and is refused for want of them alone.
    pub fn new(alloc: Global) -> Result<FrameBuf, Memory>
        ensures { IfOk result (λ b. b ≡ []) }
    {
        Ok(FrameBuf {
            room: vec![in alloc; 0; ROOM]?,
            len: 0,
            spelling: Spelling::new(0),
        })
    }

    /// The octets of the frame that it holds.
    pub fn octets(&self) -> &[u8]
        ensures { result.now ≡ self.now }
    {
        &self.room[..self.len]
    }
}

/// Writes the frame of this protocol and information into `out`, between two flags, in this form (RFC 1662 section 4). LCP
/// keeps its whole header whatever the form says. It is refused exactly where `info` has more than 8,192 octets, and `out`
/// then is as it was. It takes no memory.
pub fn encode(out: &mut FrameBuf, form: Form, protocol: u16, info: &[u8]) -> Result<(), TooLong>
    ensures ok { OnOk result (out.new ≡ enc form protocol info.now) }
    ensures long { IsErr result ↔ (MOST_INFO < length info.now) }
    ensures err { OnErr result (out.new ≡ out.old) }
{
    if info.len() > MOST_INFO {
        return Err(TooLong);
    }
    if out.spelling.map != form.map {
        out.spelling = Spelling::new(form.map);
    }
    let (header, size) = make_header(form, protocol, info);
    out.len = write_frame(&mut out.room, &out.spelling, &header[..size], info);
    Ok(())
}

/// Writes a frame with this header and information, and answers how many octets it has.
fn write_frame(room: &mut [u8], spelling: &Spelling, header: &[u8], info: &[u8]) -> usize
    requires { 2 * length header.now + 2 * length info.now + 6 ≤ length room.old }
    ensures within { result ≤ length room.old }
    ensures octets { take result room.new
        ≡ FLAG ∷ stuffed spelling.now.map (checked (header.now ++ info.now)) ++ FLAG ∷ [] }
{
    let check = after_octets(after_octets(START, header), info) ^ 0xffff;
    room[0] = FLAG;
    let mut end = stuff(room, 1, spelling, header);
    end = stuff(room, end, spelling, info);
    end = stuff(
        room,
        end,
        spelling,
        &[(check % 256) as u8, (check / 256) as u8],
    );
    room[end] = FLAG;
    end + 1
}
