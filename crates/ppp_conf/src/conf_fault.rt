//! Why settings couldn't be read.

ghost use Rattle.std.specs.Prelude.{Some};
ghost use Rattle.ppp_conf.specs.ConfFault.{fault_text};

use crate::conf_why::ConfWhy;
use crate::key_path::KeyPath;
use std::fmt;
use thiserror::Error;

/// Settings couldn't be read. A refusal prints as `config KEY WHY`.
#[derive(Debug, Drop, Error)]
pub enum ConfFault {
    /// There wasn't enough memory.
    Memory,
    /// The settings are refused, for the first cause of all.
    Refused {
        /// The key.
        key: KeyPath,
        /// Why it is refused.
        why: ConfWhy,
    },
}

impl fmt::Display for ConfFault {
    ghost output = { λ fault. Some (fault_text fault) };

    fn fmt<W: fmt::Write>(&self, f: &mut fmt::Formatter<W>) -> fmt::Result {
        match self {
            ConfFault::Memory => f.write_str("out of memory"),
            ConfFault::Refused { key, why } => write!(f, "config {key} {why}"),
        }
    }
}
