//! The options of two network control protocols: OSINLCP's alignment (RFC 1377) and MPLSCP's none (RFC 3032 section
//! 4.4). Each table is handed to a `ppp_auto::Automaton`. No call takes memory.
#![tactic(auto)]

mod mpls_table;
mod osi_table;

pub use mpls_table::MplsTable;
pub use osi_table::{ALIGNMENT, ALIGNMENT_OCTETS, EVEN, MOST_ALIGNMENT, ODD, OsiTable};

#[cfg(test)]
mod tests;
