//! BACP's one option, the Favored-Peer number, and which end it favours (RFC 2125).
//!
//! A [`BacpTable`] is handed to a `ppp_auto::Automaton`. Each end has to ask with a number; the two are never the same,
//! so exactly one end is [`favoured`]. No call takes memory.
#![tactic(auto)]

mod bacp_table;

pub use bacp_table::{BacpTable, FAVORED_PEER, favoured};

#[cfg(test)]
mod tests;
