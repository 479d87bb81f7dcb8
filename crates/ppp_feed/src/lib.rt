//! What one end sends and tells while lines of a feed happen to it.
//!
//! [`feed`] makes a station of an end's settings, does each line of a script to it, and gives what comes of
//! them as lines: `push L HEX` for a frame to send, `got C P HEX` for a datagram that came, `hang L` for a line that LCP is
//! done with, `dial L` for a link that BAP has brought up. Octets are taken up to the end of each frame in turn. There is no clock: timers fire where a line says so.
//! Settings and lines decide what is written ([`decided`]). The rules of these lines are this project's own.
#![tactic(auto)]

mod entry_line;
mod fed;
mod law;

pub use fed::feed;
pub use law::decided;
pub use ppp_memory::Memory;
