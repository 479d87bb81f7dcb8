//! PPP control packets and lists of Configuration Options (RFC 1661 sections 5 and 6). No call takes memory.
#![tactic(auto)]

mod code;
mod disc;
mod disc_class;
mod law;
mod opt;
mod opt_list;
mod opt_ref;
mod options;
mod packet_ref;
mod proto;

pub use code::{Code, UnknownCode};
pub use disc::{Disc, MOST_ADDRESS};
pub use disc_class::{DiscClass, MOST_DIRECTORY, UnknownClass};
pub use law::read_again;
pub use opt::{MOST_KEPT_BODY, Opt};
pub use opt_list::{MOST_LIST, NoRoom, OptList, write_options};
pub use opt_ref::OptRef;
pub use options::{MOST_BODY, OPTION_HEADER, Options, read_options};
pub use packet_ref::{MOST_DATA, PACKET_HEADER, PacketRef, read_packet, write_packet};
pub use proto::{Proto, UnknownProto};
