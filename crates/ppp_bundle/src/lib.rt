//! The table of an end's multilink bundles (RFC 1990 sections 5.1.1 to 5.1.3).
//!
//! A [`BundleTable`] says which links are joined in which bundle. A link whose LCP reached Opened asks to
//! [`BundleTable::join`] with what the two lists grant; it joins the bundle of its peer, begins one, or stays a single
//! link, and is told why. It leaves by [`BundleTable::leave`]. [`BundleTable::control`] is the one link of a bundle that
//! both ends take for the packets of the control protocols above LCP. A mark on a joined link and the sending numbers of
//! a bundle's peer are kept for the caller. Left out are the fragments themselves. Only [`BundleTable::new`] takes
//! memory.
#![tactic(auto)]

mod bundle_table;
mod control;
mod join;
mod join_key;
mod joined;
mod known;
mod laws;
mod left;
mod limits;

pub use bundle_table::BundleTable;
pub use join::{Join, SingleWhy};
pub use join_key::{JoinKey, UNNUMBERED};
pub use laws::{alone, control_joined, same_control, sound};
pub use left::Left;
pub use limits::{CLASSES, Limits, MOST_BUNDLES, MOST_LINKS, MOST_PEERS};

#[cfg(test)]
mod tests;
