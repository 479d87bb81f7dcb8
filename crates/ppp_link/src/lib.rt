//! One link of an end of PPP: LCP and the control protocols that begin once it is Opened (RFC 1661 section 3).
//!
//! A [`Link`] has an automaton for LCP and one for each control protocol that its settings configure. The caller tells it of
//! the line ([`Link::up`], [`Link::down`]), of what an administrator wants ([`Link::admin_open`], [`Link::admin_close`]), of
//! timers that fire ([`Link::timeout`]) and of octets that come ([`Link::bytes`]), and after LCP's signals says when the
//! control protocols are to run ([`Link::run_ncps`]): a link doesn't do that itself, since in a bundle they run on one link
//! alone. What came inside multilink comes to a bundle's control link by [`Link::inner`]. Each call empties a [`LinkOut`] and puts into it, in order, the frames to send, the signals of the protocols, and
//! what is handed up. The caller works these off before the next call.
//!
//! Frames of LCP are taken always, any other while LCP is Opened. LCP's are sent with whole headers, others as LCP grants.
//!
//! Left out: which link is in which bundle, fragments, timers, and what an address means. Memory is taken by the two constructors alone.
#![tactic(auto)]

mod automata;
mod given;
pub mod laws;
mod link;
mod link_out;
mod steps;
mod tables;

pub use link::{Link, MOST_AFTER_EVENT, MOST_AFTER_FRAME, MOST_AFTER_RUN, MOST_FRAME, MOST_INNER};
pub use link_out::{LinkEntry, LinkOut, MOST_OCTETS, MOST_PUSH};
pub use ppp_memory::Memory;

#[cfg(test)]
mod pair;
#[cfg(test)]
mod tests;
