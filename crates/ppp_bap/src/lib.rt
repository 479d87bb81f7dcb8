//! One end's Bandwidth Allocation Protocol: asking for links and dropping them (after RFC 2125).
//!
//! A [`Bap`] keeps at most one request of each bundle that waits for its response, and a [`Policy`] that decides whether a peer may
//! have another link. The caller shows it a bundle as a [`BundleView`], whose bundle has BACP Opened on its control link where a packet
//! is taken there. [`Bap::ask`] asks the peer, [`Bap::receive`] takes the octets of a packet, [`Bap::timeout`] is called while a
//! request waits and no response came in time, and [`Bap::link_left`] and [`Bap::reset`] where a link leaves a bundle, BACP leaves
//! Opened or the control link changes. Each call that sends empties a [`BapOut`] first, but for an [`Bap::ask`] that is refused, and
//! puts into it what the caller is to do, in order: send a packet, mark a link that was promised to the peer, close LCP of a link, or
//! bring a link up.
//!
//! Left out are timers, and what a telephone number is: here it names a link. No call takes memory.
#![tactic(auto)]

mod answer;
mod ask_refused;
mod bap;
mod bap_ask;
mod bap_option;
mod bap_out;
mod bap_packet;
mod bundle_view;
mod call_ask;
mod laws;
mod link_set;
mod link_type;
mod packet_type;
mod phone_delta;
mod policy;
mod response_code;
mod wait;
mod wish;

pub use ask_refused::AskRefused;
pub use bap::{BUNDLES, Bap, MOST_TRIES};
pub use bap_ask::BapAsk;
pub use bap_out::{BapEntry, BapOut, MOST_PACKET, SLOTS};
pub use bundle_view::{BundleView, LINKS};
pub use call_ask::CallAsk;
pub use laws::{due, granted, read_again};
pub use link_type::LinkType;
pub use packet_type::PacketType;
pub use policy::Policy;

#[cfg(test)]
mod tests;
