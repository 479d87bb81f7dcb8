//! One whole end of PPP: its links in bundles (`ppp_trunk`), and BAP, by which it asks its peer for links and to drop them
//! (after RFC 2125).
//!
//! A [`Station`] is driven by events: what happens to the line of a link, what an administrator wants of a protocol, a timer
//! that fires, octets that come, a wish for a link or to drop one. Each empties a [`StationOut`] and puts into it, in order, the
//! frames to send, the datagrams that came, the links to bring up, the lines that are done with, and the answer to a wish. The
//! links do their step first; then the waits end that end by it, and a packet of BAP is taken that came on a link where BACP
//! is Opened.
//!
//! Left out: fragments, which are discarded, datagrams that are sent, and timers. Memory is taken by the two constructors alone,
//! and no event is refused.
#![tactic(auto)]

mod bap_terms;
mod hub;
pub mod laws;
mod station;
mod station_event;
mod view;
mod waits;

pub use bap_terms::BapTerms;
pub use ppp_bap::{AskRefused, BapAsk, CallAsk, Policy};
pub use ppp_bundle::MOST_LINKS;
pub use ppp_memory::Memory;
pub use ppp_trunk::{MOST_ENTRIES, MOST_OCTETS, StationEntry, StationOut};
pub use station::Station;
pub use station_event::StationEvent;

#[cfg(test)]
mod pair;
#[cfg(test)]
mod tests;
