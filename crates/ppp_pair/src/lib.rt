//! Two ends of one bundle that ask each other to bring up links and to drop them, and the packets of this under way between them:
//! the machine over which the laws of two such ends are stated (RFC 2125). There is no code here but the functions of [`laws`],
//! which do nothing and carry the laws as their contracts.
//!
//! An end has its joined and its marked links, the ordinal of the last Identifier that it drew, and at most one request that waits.
//! A request bears its ordinal, a response that of the request which it answers. What was sent to an end may come at any time, in
//! any order, again and again or never, so the laws hold over links that lose, overtake and repeat; over links that give each packet
//! once at most they hold too, as [`laws::included`] says. Beside this an end has what no end reads: what it did, which links it left
//! that the other end has had ever since, and which links the other end closed by its grant.
//!
//! What happens is an event at one of the two ends; `specs/Pair` has all of it as functions. An event that may not happen changes
//! nothing, so the laws range over every list of events. An end of a world is such an end where a link's LCP is reopened only after
//! the other end left it, and where spans are at most 255: then an Identifier of 8 bits tells the requests apart
//! ([`laws::matching`]).
//!
//! Left out: whose request stands where both ends ask (an end may give up its own at any time), how many links are wanted, the
//! numbers by which packets name links, timers and octets.
#![tactic(auto)]

pub mod laws;
