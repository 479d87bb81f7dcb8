//! Lines, fields and numbers of texts, for all readers of lines, and octets in digits, for all that write them.
//!
//! An input is parted once into settings and lines ([`part_input`]). A reader takes line after line from the front of a
//! text ([`split_line`]), goes over the fields of each ([`Fields`]) and reads the numbers in them ([`number`]). What is
//! wrong with a line is the caller's to say: no call here refuses but by None. Octets print as [`HexText`]. No call takes
//! memory.
#![tactic(auto)]

mod fields;
mod hex_text;
mod law;
mod lines;
mod numbers;
mod parts;
mod split;

pub use fields::Fields;
pub use hex_text::HexText;
pub use law::read_again;
pub use lines::split_line;
pub use numbers::number;
pub use parts::{Parts, part_input};
pub use split::split_once;
