//! The options of the two protocols for IP: IPCP's address (RFC 1332 section 3.3) and IPV6CP's interface identifier
//! (RFC 5072 section 4.1). Each table is handed to a `ppp_auto::Automaton`. Compression and name servers are left out:
//! their options are unknown. No call takes memory.
#![tactic(auto)]

mod ipcp_table;
mod ipv6_table;

pub use ipcp_table::{ADDRESS, IpcpTable};
pub use ipv6_table::{IDENTIFIER, Ipv6Table};

#[cfg(test)]
mod tests;
