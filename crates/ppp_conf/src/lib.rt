//! Settings of both ends, as a TOML text: what it reads as, and how it is printed.
//!
//! [`read_config`] reads a text as a [`Config`], or answers the first refusal in this order: the text isn't TOML; the
//! version is missing, no whole number, or another than 1 and 2; a key is unknown, the least path of all in the order of
//! its octets; `links`, the keys of `a` and the keys of `b`, each in table order; the rules of `a`, then those of `b`. A
//! refusal is a [`KeyPath`] and a [`ConfWhy`], and prints as `config KEY WHY`. Each value of an [`EndConfig`] is within
//! its range and keeps its form, and together they keep the rules; these are facts of its type, so a caller never looks
//! at them again. [`print_config`] prints a text of version 2, which reads as the same settings.
//!
//! What the values mean is told where they are used. A text is read whole; there is no default file and no merging.
#![tactic(auto)]

mod conf_fault;
mod conf_why;
mod config;
mod config_keys;
mod config_text;
mod disc_text;
mod dotted;
mod end_config;
mod end_keys;
mod end_table;
mod fields;
mod form;
mod hex_text;
mod key_path;
mod keys;
mod law;
mod protocols;
mod rules;
mod socket_text;
mod unknown;

pub use conf_fault::ConfFault;
pub use conf_why::ConfWhy;
pub use config::Config;
pub use config_keys::read_config;
pub use config_text::print_config;
pub use end_config::EndConfig;
pub use key_path::KeyPath;
pub use law::read_in_range;
pub use socket_text::{MOST_SOCKET, SocketText};

#[cfg(test)]
mod tests;
