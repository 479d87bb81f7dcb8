//! One whole end of PPP: up to 16 links, the control protocols on each (RFC 1661 section 3), and the multilink bundles that
//! links are joined in (RFC 1990).
//!
//! A [`Trunk`] is driven by events: what happens to the line of a link, what an administrator wants of a protocol, a timer
//! that fires, octets that come. Each empties a [`StationOut`] and puts into it, in order, the frames to send, the datagrams
//! that came, and the lines that are done with. A link joins when its LCP enters Opened, and leaves when it leaves Opened. The
//! control protocols above LCP are Up on a single link while LCP is Opened, and of a bundle's links on its control link alone;
//! BACP is Up on the control link of a bundle alone. What a signal of LCP causes comes in its place, before the next entry.
//!
//! Left out: fragments, which are discarded, BAP, datagrams that are sent, and timers. Memory is taken by the two constructors
//! alone, and no event is refused.
#![tactic(auto)]

mod happening;
pub mod laws;
mod station_out;
mod steps;
mod trunk;
mod trunk_event;

pub use ppp_bundle::MOST_LINKS;
pub use ppp_memory::Memory;
pub use station_out::{MOST_ENTRIES, MOST_OCTETS, StationEntry, StationOut};
pub use steps::{BAP, MOST_MADE, MOST_MADE_OCTETS};
pub use trunk::Trunk;
pub use trunk_event::TrunkEvent;

#[cfg(test)]
mod pair;
#[cfg(test)]
mod tests;
