//! LCP's options (RFC 1661 section 6, RFC 1662 section 7.1, RFC 1990 section 5.1): what an end asks for, what it takes
//! of a peer's, and what was granted.
//!
//! An [`LcpTable`] is what an end is set to; it is handed to a `ppp_auto::Automaton`. [`grant_of`] reads what a list
//! grants, an own list that was acknowledged or a peer's. Left out are authentication, link quality and every
//! compression but short headers: their options are unknown. No call takes memory.
#![tactic(auto)]

mod laws;
mod lcp_grant;
mod lcp_kind;
mod lcp_table;
mod rows;

pub use laws::settings_kept;
pub use lcp_grant::{LcpGrant, grant_of};
pub use lcp_kind::{LcpKind, UnknownKind};
pub use lcp_table::{
    DEFAULT_ACCM, DEFAULT_MRU, FORM_OCTETS, LEAST_MRRU, LEAST_MRU, LONG_CODE, LcpTable,
    MOST_LONG_CLASSES, MOST_MRRU, MOST_MRU, MOST_SHORT_CLASSES, SHORT_CODE,
};

#[cfg(test)]
mod tests;
