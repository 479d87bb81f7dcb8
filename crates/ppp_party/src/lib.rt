//! One end of a world: a station, link by link what is counted of the Configure-Requests of each protocol and the frames under
//! way to it, and the ordinals of what BAP sends.
//!
//! A [`Party`] is driven with the other end beside it: something happens at one of its links, the front frame under way to it
//! is delivered or a frame is lost, its peer is asked for a link or told how a call went, BAP's timer fires, or it begins anew.
//! What it sends is noted, marked and put into the other's queue of the link; a queue of 1,024 frames is full, and loses what
//! comes. A [`Desk`] has what an end works with, and serves both in turn. Want of memory is the one error, and of the two ends
//! nothing more is known then.
//!
//! A frame under way is octets with a mark beside them, which no end reads: the ordinal of a request, and of an answer that of
//! what it answers. BAP's requests and indications are counted by one counter, and a copy of a request has the request's
//! ordinal. `specs/Party` has what an event at the end makes of it, and of the frames under way to the other end; `specs/Seat`
//! the same of one link. The frames are read with both short headers, whatever is granted at the moment.
//!
//! The laws on two ends of one protocol (`ppp_duet`) speak of packets. That each event at an end is a list of their events, for
//! every protocol on every link, is what stands in [`laws`], whose functions do nothing.
//!
//! Left out: datagrams that are sent.
#![tactic(auto)]

mod about;
mod bap_kind;
mod carried;
mod desk;
mod frame;
mod happening;
pub mod laws;
mod ledger;
mod ledgers;
mod packet;
mod party;
mod queue;
mod reader;
mod states;

pub use desk::Desk;
pub use happening::Happening;
pub use party::{Answer, Oldest, Party};
pub use ppp_memory::Memory;
pub use ppp_station::Policy;

#[cfg(test)]
mod tests;
