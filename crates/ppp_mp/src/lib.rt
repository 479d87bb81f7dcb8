//! Multilink fragments in classes (RFC 1990 section 3, with the classes of RFC 2686 section 4).
//!
//! A sender has a [`Fragmenter`] and a [`FragmentOut`]: [`Fragmenter::cut`] cuts one packet into fragments, which
//! [`FragmentOut::at`] lends, each with its [`Header`]. The numbers of each class go on by one over all packets; a caller
//! keeps them past a bundle's end by [`Fragmenter::numbers`] and [`Fragmenter::set_numbers`]. [`read_header`] reads the
//! header of a fragment that came.
//!
//! What a receiver is to do is defined whole, and the laws speak of it: [`in_order`] says that a class delivers what was
//! sent, whole, once and in order, [`begun`] that what it delivers begins as some fragment did, and [`read_again`] that what
//! is written is read again. Left out is the receiver itself. Memory is taken by [`FragmentOut::new`] alone.
#![tactic(auto)]

mod batch;
mod fragment_out;
mod fragmenter;
mod header;
mod laws;
mod limits;

pub use fragment_out::{FragmentOut, MOST_OCTETS};
pub use fragmenter::Fragmenter;
pub use header::{Header, read_header};
pub use laws::{begun, in_order, numbers, read_again};
pub use limits::{
    CLASSES, LONG_CLASSES, LONG_SPACE, MOST_HELD, MOST_LINKS, MOST_PACKET, SHORT_CLASSES,
    SHORT_SPACE,
};

#[cfg(test)]
mod tests;
