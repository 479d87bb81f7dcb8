//! Two ends of one control protocol on one link, and the queue of packets to each: the machine over which the laws of
//! two ends are stated (RFC 1661 section 4). There is no code here but the functions of [`laws`], which do nothing and
//! carry the laws as their contracts.
//!
//! An end is an automaton of `ppp_auto` with two ordinals and a list beside it that no end reads: the ordinal of its last
//! request, that of the peer's last request that it took in, and its own list when it judged the one that it acknowledged
//! last. A request that is sent again keeps its ordinal. Each Configure-Request under way bears its ordinal as a mark, and each answer to it the same mark.
//! What happens is an event without a packet, the delivery or the loss of a packet, a Protocol-Reject, another cap, or
//! that an end begins anew; `specs/Duet` has all of it as functions, over any tables of options.
//!
//! Both laws hold while no span is wider than 255 (`specs/Span`): the span of an end reaches back from its last request
//! to the oldest one that is under way or whose answer is. Then an Identifier of 8 bits tells these requests apart. A
//! caller that keeps two ends of its own shows of each state that a list of events leads to it (`specs/Reached`), and
//! has the laws, the Identifiers and the order in its queues from the lemmas on such states.
//!
//! What two ends say to each other, the lists of their requests and of each kind of answer, is carried through every run
//! without a bound on spans (`specs/Said`).
//!
//! Left out: time, frames, and what a line does to octets.
#![tactic(auto)]

pub mod laws;
