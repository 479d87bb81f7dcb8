//! The outside as numbered ports of octets, a clock and words.
//!
//! A net is a [`Wires`]: ports 1 to 32, each of which a caller connects to a name, or joins to another one, polls, pushes
//! to and hangs up. A [`Clock`] gives moments in milliseconds, and [`Words`] give numbers at will. Each may tell its
//! record, the list of its calls in order with what they answered. In memory [`SureWires`] and [`MemWires`] are nets whose
//! ports reach one another, the second one with calls that fail, and [`ListClock`] and [`ListWords`] give listed numbers.
#![tactic(auto)]

mod clock;
mod journal;
mod law;
mod list_clock;
mod list_words;
mod listed;
mod mem_wires;
mod octets;
mod place;
mod ports;
mod sure_wires;
mod wires;
mod words;

pub use clock::Clock;
pub use law::numbers;
pub use list_clock::ListClock;
pub use list_words::ListWords;
pub use mem_wires::MemWires;
pub use ppp_memory::Memory;
pub use sure_wires::SureWires;
pub use wires::{MOST_LINK, MOST_NAME, MOST_PORT, Polled, Pushed, Wired, Wires};
pub use words::Words;
