//! Tables of options as their rows (RFC 1661 sections 5 and 6).
//!
//! A row says of the options of one Type how long they are, what is asked for first, which of a peer's are unknown and
//! which are good, what is suggested else, and what a Configure-Nak changes. A table of a protocol is a list of rows in
//! ascending Types: it implements [`OptionRules`], which answers for one Type, and the walks over lists here
//! ([`first_list`], [`list_after_nak`], [`list_after_reject`]) are the bodies of its `OptionTable`. That such a table is
//! lawful is proved once, for any rows. Numbers in bodies and drawn numbers stand here too. No call takes memory.
#![tactic(auto)]

mod number;
mod option_rules;
mod own_list;

pub use number::{
    OCTETS_U16, OCTETS_U32, OCTETS_U64, is_free, is_new_u32, is_new_u64, is_within_u16,
    number_taken, number_u16, number_u32, number_u64, octets_u16, octets_u32, octets_u64, pick,
    pick64,
};
pub use option_rules::OptionRules;
pub use own_list::{
    first_list, first_of, has_option, list_after_nak, list_after_reject, number_of_u32,
    number_of_u64, sized_of,
};
