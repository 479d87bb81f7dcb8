//! A stream of octets, and what is shown of it.

ghost use Rattle.std.specs.Prelude.{◌≡◌, ◌<◌, ◌≤◌, ◌++◌, ℕ, List, [], length, take, IfOk, OnOk, IsSome};
ghost use Rattle.std.specs.String.{string_bytes};
ghost use Rattle.ppp_frame.specs.declared.fed.Got.TheVariants.{Frame};
ghost use Rattle.ppp_show.specs.Shown.{HasShown, got_text};

use crate::discard_line::DiscardLine;
use crate::frame_line::FrameLine;
use ppp_frame::{Deframer, Got};
use ppp_memory::Memory;
use std::alloc::Global;

/// The most octets of a frame that is read, escapes undone, with header and check sequence.
pub const MOST_FRAME: usize = 8_200;

/// What is shown of a stream of octets: the deframer that it goes through, and the text so far.
#[derive(Drop)]
pub(crate) struct Shown {
    deframer: Deframer,
    text: String,
}

impl Shown {
    /// Nothing came yet.
    pub(crate) fn new(alloc: Global) -> Result<Shown, Memory>
        ensures { IfOk result (HasShown []) }
    {
        let mut deframer = Deframer::new(alloc, MOST_FRAME)?;
        deframer.set_short(true, true);
        Ok(Shown {
            deframer,
            text: String::new(alloc),
        })
    }

    /// Takes the next octets of the stream.
    pub(crate) fn take(&mut self, octets: &[u8]) -> Result<(), Memory>
        ensures { OnOk result ((stream : List ℕ) → HasShown stream self.old
            → HasShown (stream ++ octets.now) self.new) }
    {
        let mut at = 0;
        'pieces: while at < octets.len() {
            let (_taken, rest) = octets.split_at(at);
            at += self.take_piece(rest)?;
        }
        Ok(())
    }

    /// Takes octets up to and with the flag that ends something, and answers how many.
    fn take_piece(&mut self, octets: &[u8]) -> Result<usize, Memory>
        ensures shown { IfOk result (λ used. (stream : List ℕ) → HasShown stream self.old
            → HasShown (stream ++ take used octets.now) self.new) }
        ensures used { IfOk result (λ used. used ≤ length octets.now) }
        ensures progress { IfOk result (λ used. 0 < length octets.now → 0 < used) }
    {
        let fed = self.deframer.feed(octets);
        self.add(fed.got)?;
        Ok(fed.used)
    }

    /// Adds the line for what the last call of `feed` answered.
    fn add(&mut self, got: Got) -> Result<(), Memory>
        requires { got ≡ Frame → IsSome self.old.deframer.frame }
        ensures deframer { self.new.deframer ≡ self.old.deframer }
        ensures text { OnOk result (string_bytes self.new.text
            ≡ string_bytes self.old.text ++ got_text got self.old.deframer.frame) }
    {
        match got {
            Got::More => Ok(()),
            Got::Discard(why) => {
                let line = DiscardLine { why };
                write!(self.text, "{line}").map_err(|_| Memory)
            }
            Got::Frame => {
                let line = FrameLine {
                    frame: self.deframer.frame(),
                };
                write!(self.text, "{line}").map_err(|_| Memory)
            }
        }
    }

    /// The text.
    pub(crate) fn into_octets(self) -> Vec<u8>
        ensures { result.items ≡ string_bytes self.text }
    {
        self.text.into_bytes()
    }
}
