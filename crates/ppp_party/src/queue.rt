//! Queues of frames.

ghost use Rattle.std.specs.Prelude.{◌≡◌, ◌≤◌, ◌<◌, ◌↔◌, [], ◌∷◌, ◌++◌, length, IsTrue, OnOk, OnErr, MatchOption};
ghost use Rattle.std.specs.List.{remove};
ghost use Rattle.std.specs.Option.{option_to_list};
ghost use Rattle.ppp_duet.specs.Duet.{without};
ghost use Rattle.ppp_duet.specs.Span.{answers, least, requests};
ghost use Rattle.ppp_party.specs.About.{about_of};
ghost use Rattle.ppp_party.specs.BapSpans.{bap_answers, bap_kind, bap_requests};
ghost use Rattle.ppp_party.specs.Frame.{carried, only};
ghost use Rattle.ppp_party.specs.Party.{queued, room};

use crate::about::{About, PacketKind};
use crate::frame::Frame;
use ppp_memory::Memory;
use ppp_packet::Proto;
use std::alloc::Global;
use std::collections::VecDeque;
use std::marker::Model;

/// How many frames a queue holds.
const ROOM: usize = 1024;

/// The frames under way to an end on a link, the oldest first, at most 1,024. It is seen as the list of them.
#[derive(Drop)]
pub(crate) struct Queue {
    frames: VecDeque<Frame>,
    alloc: Global,
}

impl Model for Queue {
    ghost use Rattle.std.specs.Prelude.{List, length, ◌≤◌};
    ghost use Rattle.ppp_party.specs.Frame.{Frame};
    ghost use Rattle.ppp_party.specs.Party.{room};

    ghost Value = { List Frame };

    ghost view = { λ q. q.frames.items };

    ghost invariant = { λ q. length q.frames.items ≤ room };
}

impl Queue {
    /// A queue with no frame.
    pub(crate) fn new(alloc: Global) -> Queue
        ensures { result ≡ [] }
    {
        Queue {
            frames: VecDeque::new(alloc),
            alloc,
        }
    }

    /// Whether no frame is under way.
    pub(crate) fn is_empty(&self) -> bool
        ensures { IsTrue result ↔ (self.now ≡ []) }
    {
        self.frames.is_empty()
    }

    /// Puts a frame at the end, or loses it where the queue is full.
    pub(crate) fn send(
        &mut self,
        mark: u64,
        about: Option<About>,
        bap: Option<PacketKind>,
        octets: &[u8],
    ) -> Result<(), Memory>
        requires about { about ≡ about_of (carried octets.now) }
        requires bap { bap ≡ bap_kind octets.now }
        ensures ok { OnOk result (self.new ≡ queued self.old (record { mark = mark; octets = octets.now } ∷ [])) }
        ensures few { length self.new ≤ room }
    {
        if self.frames.len() >= ROOM {
            return Ok(());
        }
        let frame = Frame::new(self.alloc, mark, about, bap, octets)?;
        put(&mut self.frames, frame)
    }

    /// Takes the front frame out.
    pub(crate) fn pop(&mut self) -> Option<Frame>
        ensures front { MatchOption result ((self.old ≡ []) × (self.new ≡ []))
            (λ frame. self.old ≡ frame ∷ self.new) }
        ensures few { length self.new ≤ room }
    {
        self.frames.pop_front()
    }

    /// Loses the frame of that place from the front, from 1 on, if there is one.
    pub(crate) fn lose(&mut self, place: u16)
        ensures value { self.new ≡ without place self.old }
        ensures few { length self.new ≤ room }
    {
        let count = self.frames.len();
        if is_place(place, count) {
            lose_at(&mut self.frames, usize::from(place) - 1);
        }
    }

    /// Loses all.
    pub(crate) fn clear(&mut self)
        ensures { self.new ≡ [] }
    {
        self.frames.clear();
    }

    /// The least of a number and the ordinals of the Configure-Requests of that protocol in the queue.
    pub(crate) fn oldest_request(&self, proto: Proto, first: u64) -> u64
        ensures { result ≡ least first (requests (only proto self.now)) }
    {
        let mut oldest = first;
        for i in 0..self.frames.len() {
            oldest = lesser(oldest, self.frames[i].request_mark(proto));
        }
        oldest
    }

    /// The least of a number and the ordinals of what the answers of that protocol in the queue answer.
    pub(crate) fn oldest_answer(&self, proto: Proto, first: u64) -> u64
        ensures { result ≡ least first (answers (only proto self.now)) }
    {
        let mut oldest = first;
        for i in 0..self.frames.len() {
            oldest = lesser(oldest, self.frames[i].answer_mark(proto));
        }
        oldest
    }

    /// The least of a number and the ordinals of BAP's requests in the queue.
    pub(crate) fn oldest_bap_request(&self, first: u64) -> u64
        ensures { result ≡ least first (bap_requests self.now) }
    {
        let mut oldest = first;
        for i in 0..self.frames.len() {
            oldest = lesser(oldest, self.frames[i].bap_request_mark());
        }
        oldest
    }

    /// The least of a number and the ordinals of what BAP's answers in the queue answer.
    pub(crate) fn oldest_bap_answer(&self, first: u64) -> u64
        ensures { result ≡ least first (bap_answers self.now) }
    {
        let mut oldest = first;
        for i in 0..self.frames.len() {
            oldest = lesser(oldest, self.frames[i].bap_answer_mark());
        }
        oldest
    }
}

/// Puts a frame at the end.
fn put(frames: &mut VecDeque<Frame>, frame: Frame) -> Result<(), Memory>
    ensures ok { OnOk result (frames.new.items ≡ frames.old.items ++ frame ∷ []) }
    ensures err { OnErr result (frames.new.items ≡ frames.old.items) }
{
    frames.push_back(frame).map_err(|_| Memory)
}

/// Whether that is a place among so many, from 1 on.
fn is_place(place: u16, count: usize) -> bool
    ensures { IsTrue result ↔ ((1 ≤ place) × (place ≤ count)) }
{
    1 <= place && usize::from(place) <= count
}

/// Takes a frame out and drops it.
fn lose_at(frames: &mut VecDeque<Frame>, i: usize)
    requires { i < length frames.old.items }
    ensures { frames.new.items ≡ remove frames.old.items i }
{
    match frames.remove(i) {
        Some(_lost) => (),
        None => (),
    }
}

/// The lesser of a number and another, if there is one.
fn lesser(first: u64, mark: Option<u64>) -> u64
    ensures { result ≡ least first (option_to_list mark) }
{
    match mark {
        Some(mark) => mark.min(first),
        None => first,
    }
}
