//! Two whole ends, a and b, and the frames under way between them, stepped by the events of a script: LCP and the
//! control protocols on up to 16 links (RFC 1661), single or joined in bundles (RFC 1990).
//!
//! [`replay`] runs a whole script and answers a [`Replayed`]: the report, and the [`Refusal`] of the first step that is
//! refused, which prints itself. [`World`] is the same step by step: `step` for each event, `steps` and `report` between them,
//! and `agree`, `a` and `b` as long as no step was refused. At most 100,000 steps are done. Links count from 1, and an event of
//! a link that isn't there does nothing. A step is refused with [`Outstanding`] where an Identifier no longer tells the requests
//! under way apart, and after that every call gives the same refusal. There is no clock, and nothing is read or written
//! outside.
//!
//! [`laws`] has what holds of two ends with the shipped tables in every run.
#![tactic(auto)]

mod agreement;
mod ask_line;
mod bundle_lines;
pub mod laws;
mod outstanding;
mod refusal;
mod replayed;
mod report;
mod span;
mod step;
mod two_ends;
mod world;
mod world_fault;

pub use outstanding::Outstanding;
pub use ppp_memory::Memory;
pub use refusal::Refusal;
pub use replayed::{Replayed, replay};
pub use world::World;
pub use world_fault::WorldFault;
