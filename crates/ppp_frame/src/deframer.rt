//! What cuts a stream of octets into frames.

ghost use Rattle.std.specs.Prelude.{◌≡◌, ◌≢◌, ◌+◌, ◌<◌, ◌≤◌, ◌++◌, ℕ, [], List, length, take, Some, None, IfOk, IsSome, IsTrue, ◌↔◌, if◌then◌else◌, nat_le};
ghost use Rattle.std.specs.List.{prefix_len, position_or_len};
ghost use Rattle.ppp_frame.specs.Deframer.{Answers, LiesWithin, Stands, feed_step, verdict_seen};
ghost use Rattle.ppp_frame.specs.Escapes.{escaped_after, unstuffed};
ghost use Rattle.ppp_frame.specs.Fcs.{fcs_run};
ghost use Rattle.ppp_frame.specs.FrameRef.{frame_ref_seen};
ghost use Rattle.ppp_frame.specs.Standing.{after, fresh, is_fresh as is_fresh_standing, verdict_at};
ghost use Rattle.ppp_frame.specs.Stream.{is_flag};
ghost use Rattle.ppp_frame.specs.Verdict.{frame_in, got_of, verdict_of, whole_headers};

use crate::check_sequence::{GOOD, START, after_octets};
use crate::escapes::{FLAG, ends_escaped, plain_len, unstuff};
use crate::fed::{Fed, Got};
use crate::frame_ref::FrameRef;
use crate::header::read_header;
use crate::why::Why;
use memchr::memchr;
use ppp_memory::Memory;
use std::alloc::Global;
use std::marker::Model;

/// Cuts a stream of octets into frames (RFC 1662 section 4). It undoes the escapes as the octets come, into one buffer that
/// it takes once, and keeps nothing of a piece that passes its limit. It is seen as how it reads frames, what stands since
/// the last flag, and the frame that it lends.
#[derive(Drop)]
pub struct Deframer {
    room: Vec<u8>,
    limit: usize,
    held: usize,
    past: bool,
    escaped: bool,
    running: u16,
    ac: bool,
    pf: bool,
    lent: Option<Lent>,
}

/// The place of a frame's information in the buffer, and its protocol.
#[derive(Clone, Copy)]
struct Lent {
    protocol: u16,
    start: usize,
    end: usize,
}

impl Model for Deframer {
    ghost use Rattle.ppp_frame.specs.Deframer.{DeframerState, deframer_seen, IsDeframer};

    ghost Value = { DeframerState };

    ghost view = { deframer_seen };

    ghost invariant = { IsDeframer };
}

impl Deframer {
    /// Stands as after a flag, and reads whole headers alone. A frame has at most `limit` octets, escapes undone, with header
    /// and check sequence. It takes eight octets more than the limit, and is refused for want of memory alone.
    pub fn new(alloc: Global, limit: usize) -> Result<Deframer, Memory>
        ensures stands { IfOk result (λ d. Stands d []) }
        ensures reader { IfOk result (λ d. d.reader ≡ whole_headers limit) }
        ensures frame { IfOk result (λ d. d.frame ≡ None) }
    {
        let Some(size) = limit.checked_add(8) else {
            return Err(Memory);
        };
        Ok(Deframer {
            room: vec![in alloc; 0; size]?,
            limit,
            held: 0,
            past: false,
            escaped: false,
            running: START,
            ac: false,
            pf: false,
            lent: None,
        })
    }

    /// From the next flag on, frames are read whose address and control are left out (`ac`, RFC 1661 section 6.6) or whose
    /// protocol has one octet (`pf`, RFC 1661 section 6.5). The frame that is lent stays as it was read.
    pub fn set_short(&mut self, ac: bool, pf: bool)
        ensures { self.new ≡ record self.old {
          reader = record { limit = self.old.reader.limit; ac = ac; pf = pf };
        } }
    {
        self.ac = ac;
        self.pf = pf;
    }

    /// The octets that are kept of the unfinished piece, escapes undone: at most the limit, and none once it is passed.
    pub fn held(&self) -> usize
        ensures value { result ≡ length self.now.standing.plain }
        ensures limit { result ≤ self.now.reader.limit }
    {
        self.held
    }

    /// The last call of `feed` answered a frame.
    pub fn has_frame(&self) -> bool
        ensures { IsTrue result ↔ IsSome self.now.frame }
    {
        self.lent.is_some()
    }

    /// The frame that the last call of `feed` answered.
    pub fn frame(&self) -> FrameRef<'_>
        requires { IsSome self.now.frame }
        ensures frame { self.now.frame ≡ Some (frame_ref_seen result) }
        ensures size { length result.info.now ≤ self.now.reader.limit }
    {
        match self.lent {
            Some(lent) => FrameRef {
                protocol: lent.protocol,
                info: &self.room[lent.start..lent.end],
            },
            None => unreachable!(),
        }
    }

    /// Takes octets up to and with the first flag that ends something. Two flags with nothing between them end nothing. A
    /// piece that a flag ended is judged by what [`set_short`](Deframer::set_short) set last, and the deframer then stands as
    /// after a flag. The frame that was lent before is taken back. It takes no memory.
    ///
    /// `stands` and `answers` speak of the whole stream so far, so that the answers are the same in any cutting; `step` is
    /// the same as a function of what stood before the call.
    pub fn feed(&mut self, piece: &[u8]) -> Fed
        ensures step { feed_step self.old piece.now ≡ record { fed = result; left = self.new } }
        ensures stands { (before : List ℕ) → Stands self.old before
            → Stands self.new (before ++ take result.used piece.now) }
        ensures answers { (before : List ℕ) → Stands self.old before
            → Answers self.old before piece.now result self.new }
        ensures used { result.used ≤ length piece.now }
        ensures progress { 0 < length piece.now → 0 < result.used }
        ensures reader { self.new.reader ≡ self.old.reader }
    {
        self.feed_once(piece)
    }

    #[inline]
    fn feed_once(&mut self, piece: &[u8]) -> Fed
        ensures { feed_step self.old piece.now ≡ record { fed = result; left = self.new } }
    {
        self.lent = None;
        let start = idle_flags(self.is_fresh(), piece);
        let (_, rest) = piece.split_at(start);
        let size = before_flag(rest);
        let (run, _) = rest.split_at(size);
        self.take_in(run);
        let used = start + size;
        if used == piece.len() {
            return Fed {
                used,
                got: Got::More,
            };
        }
        Fed {
            used: used + 1,
            got: self.close(),
        }
    }

    fn is_fresh(&self) -> bool
        ensures { result ≡ is_fresh_standing self.now.standing }
    {
        (self.held == 0) & !self.past & !self.escaped
    }

    /// Takes in octets that have no flag.
    fn take_in(&mut self, run: &[u8])
        requires { self.old.frame ≡ None }
        ensures { self.new ≡ record self.old {
          standing = after self.old.reader.limit self.old.standing run.now;
        } }
    {
        if self.past {
            self.escaped = ends_escaped(self.escaped, run);
        } else if fits(self.escaped, run, self.limit - self.held) {
            (self.held, self.escaped, self.running) = keep(
                &mut self.room,
                self.held,
                self.escaped,
                self.running,
                run,
            );
        } else {
            self.escaped = ends_escaped(self.escaped, run);
            self.past = true;
            self.held = 0;
            self.running = START;
        }
    }

    /// Judges what stands, lends it where it is a frame, and stands as after a flag.
    fn close(&mut self) -> Got
        ensures got { result ≡ got_of (verdict_at self.old.reader self.old.standing) }
        ensures left { self.new ≡ record {
          reader = self.old.reader;
          standing = fresh;
          frame = frame_in (verdict_at self.old.reader self.old.standing);
        } }
    {
        let judged = if self.escaped {
            Err(Why::Aborted)
        } else if self.past {
            Err(Why::Oversize)
        } else {
            judge(self.ac, self.pf, &self.room[..self.held], self.running)
        };
        self.held = 0;
        self.past = false;
        self.escaped = false;
        self.running = START;
        match judged {
            Ok(lent) => {
                self.lent = Some(lent);
                Got::Frame
            }
            Err(why) => {
                self.lent = None;
                Got::Discard(why)
            }
        }
    }
}

/// Keeps what is read of `run` in `room`, from `held` on. It answers how much is held then, whether the last octet was an
/// escape, and the running value.
fn keep(room: &mut [u8], held: usize, escaped: bool, running: u16, run: &[u8]) -> (usize, bool, u16)
    requires { held + length (unstuffed escaped run.now) + 8 ≤ length room.old }
    ensures held { result.0 ≡ held + length (unstuffed escaped run.now) }
    ensures escaped { result.1 ≡ escaped_after escaped run.now }
    ensures running { result.2 ≡ fcs_run running (unstuffed escaped run.now) }
    ensures kept { take result.0 room.new ≡ take held room.old ++ unstuffed escaped run.now }
{
    let (end, behind) = unstuff(room, held, escaped, run);
    (end, behind, after_octets(running, &room[held..end]))
}

/// Judges a whole piece, escapes undone, with the running value of the check sequence after it.
fn judge(ac: bool, pf: bool, plain: &[u8], running: u16) -> Result<Lent, Why>
    requires { running ≡ fcs_run 0xffff plain.now }
    ensures verdict { verdict_seen plain.now result ≡ verdict_of ac pf plain.now }
    ensures within { IfOk result (LiesWithin (length plain.now)) }
{
    if plain.len() < 4 {
        return Err(Why::Short);
    }
    if running != GOOD {
        return Err(Why::BadFcs);
    }
    let end = plain.len() - 2;
    match read_header(ac, pf, &plain[..end]) {
        Some(header) => Ok(Lent {
            protocol: header.protocol,
            start: header.size,
            end,
        }),
        None => Err(Why::BadHeader),
    }
}

/// No more octets are read of `run` than the room that there is.
fn fits(escaped: bool, run: &[u8], room: usize) -> bool
    ensures { result ≡ nat_le (length (unstuffed escaped run.now)) room }
{
    run.len() <= room || plain_len(escaped, run) <= room
}

/// The number of flags at the front of `piece` that end nothing, since nothing stands before them.
fn idle_flags(is_fresh: bool, piece: &[u8]) -> usize
    ensures count { result ≡ (if is_fresh then prefix_len is_flag piece.now else 0) }
    ensures within { result ≤ length piece.now }
{
    if is_fresh { flags_before(piece) } else { 0 }
}

/// The number of flags at the front of `piece`.
fn flags_before(piece: &[u8]) -> usize
    ensures count { result ≡ prefix_len is_flag piece.now }
    ensures within { result ≤ length piece.now }
{
    let mut count = 0;
    'flags: while count < piece.len() && piece[count] == FLAG {
        count += 1;
    }
    count
}

/// The number of octets before the first flag of `piece`.
fn before_flag(piece: &[u8]) -> usize
    ensures count { result ≡ position_or_len is_flag piece.now }
    ensures within { result ≤ length piece.now }
{
    match memchr(FLAG, piece) {
        Some(place) => place,
        None => piece.len(),
    }
}
