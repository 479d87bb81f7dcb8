//! A capture of a PPP line in readable words.
//!
//! [`show_stream`] takes a text of hex lines, the octets of one direction of a line, and gives a line for each frame and for
//! each piece that is none: protocol and information, and of a control protocol's packet its name, Identifier and options
//! or data (RFC 1661 sections 5 and 6). Frames are read with whole and with short headers (RFC 1661 sections 6.5 and 6.6),
//! up to [`MOST_FRAME`] octets. The first line that isn't pairs of hex digits is refused ([`ShowFault`]), and then nothing is
//! shown. The rules of lines and texts are this project's own.
#![tactic(auto)]

mod code_name;
mod discard_line;
mod frame_line;
mod hex_line;
mod packet_text;
mod rest_text;
mod show_fault;
mod shown;
mod stream;

pub use show_fault::ShowFault;
pub use shown::MOST_FRAME;
pub use stream::show_stream;

#[cfg(test)]
mod tests;
