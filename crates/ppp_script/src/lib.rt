//! Scripts: event lines, and their lists with the steps counted.
//!
//! A script is read by [`read_script`], by the rules that all scripts share: lines end with LF or CR LF, empty lines and
//! those that begin with `#` are no step, and the steps of all lines are at most 100,000. What a line is stands in its
//! type ([`Line`]): [`Event`] is that of a replay, and [`FeedEvent`] that of a feed, whose scripts [`read_feed`] reads. A
//! caller goes over a [`Script`] by [`Script::count`] and [`Script::at`], and prints a refusal by its [`LineWhy`]. What is
//! parted from a script before, as settings, is left to `ppp_text`.
#![tactic(auto)]

mod end;
mod event;
mod feed_event;
mod field;
mod law;
mod line;
mod line_why;
mod octets;
mod script;
mod script_fault;
mod timer;

pub use end::End;
pub use event::{Event, MOST_PLACE, MOST_SETTLED, MOST_STATUS, steps_of};
pub use feed_event::{FeedEvent, read_feed};
pub use field::MOST_LINKS;
pub use law::read_again;
pub use line::Line;
pub use line_why::LineWhy;
pub use octets::{MOST_OCTETS, Octets};
pub use script::{MOST_STEPS, Script, read_script};
pub use script_fault::ScriptFault;
