//! What holds of two ends in every run. These functions answer nothing: each carries its law as its contract, over the
//! definitions that the automaton's calls cite.

ghost use Rattle.ppp_duet.specs.Agreement.{Agreement};
ghost use Rattle.ppp_duet.specs.Reopening.{Reopening};

use ppp_auto::OptionTable;

/// Two Opened ends agree, for two values of any lawful table, any first Identifiers and every list of events whose
/// states are all narrow: each end's granted options are those that the other acknowledged, both tables allow them, and
/// the two lists fit (RFC 1661 section 4).
pub fn agreement<T: OptionTable>(a: &T, b: &T)
    ensures { Agreement T.table T.sendable T.allows T.compat a.now b.now }
{}

/// Between the moment an end leaves Opened and the moment it next enters it, the other end is outside Opened, for two
/// values of any lawful table, any first Identifiers and every list of events whose states are all narrow.
pub fn reopening<T: OptionTable>(a: &T, b: &T)
    ensures { Reopening (T.table a.now) (T.table b.now) }
{}
