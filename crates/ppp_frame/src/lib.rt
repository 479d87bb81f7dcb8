//! Frames of PPP between flags (RFC 1662 sections 3 and 4), with short headers where they were granted (RFC 1661 sections 6.5
//! and 6.6).
//!
//! A sender has a [`FrameBuf`] and a [`Form`], how its peer wants frames: [`encode`] writes one frame into the buffer, and
//! [`FrameBuf::octets`] lends it. A reader has a [`Deframer`]: [`Deframer::feed`] takes octets as they come, in any cutting, up
//! to the flag that ends something, and says what ended ([`Fed`], [`Got`], [`Why`]). It is called again with the octets that it
//! left. After a frame [`Deframer::frame`] lends protocol and information until the next call. [`Deframer::set_short`] says
//! which short headers are read from the next flag on. [`fcs`] is the check sequence alone.
//!
//! Memory is taken by the two constructors alone. [`read_back`] has the laws. Left out are frames by bits (RFC 1662 section 5),
//! the check sequence of 32 bits and what LCP decides: forms and limits are the caller's.
#![tactic(auto)]

mod check_sequence;
mod deframer;
mod escapes;
mod fcs_table;
mod fed;
mod form;
mod frame_buf;
mod frame_ref;
mod header;
mod lanes;
mod law;
mod place_table;
mod spelling;
mod too_long;
mod why;

pub use check_sequence::fcs;
pub use deframer::Deframer;
pub use escapes::{ESCAPE, FLAG, TOGGLE};
pub use fed::{Fed, Got};
pub use form::Form;
pub use frame_buf::{FrameBuf, MOST_INFO, ROOM, encode};
pub use frame_ref::FrameRef;
pub use header::{ALL_STATIONS, LCP, UNNUMBERED};
pub use law::read_back;
pub use too_long::TooLong;
pub use why::Why;
