//! What a protocol negotiates.

ghost use Rattle.std.specs.Prelude.{◌≡◌, ℕ, Bool, List};
ghost use Rattle.ppp_packet.specs.ConfigOption.{ConfigOption};
ghost use Rattle.ppp_packet.specs.OptRef.{option_seen};
ghost use Rattle.ppp_auto.specs.Lawful.{Lawful};
ghost use Rattle.ppp_auto.specs.OptionTable.{Table};

use crate::verdict::Verdict;
use ppp_packet::{Opt, OptList, OptRef, Options};

/// The options of a protocol, as the automaton negotiates them (RFC 1661 sections 5 and 6). A method is a function of
/// the table and its arguments alone. A word is where a table takes what it draws at random.
pub trait OptionTable {
    /// The protocol's number (RFC 1661 section 2).
    const PROTOCOL: u16;

    /// Whether codes 8 to 11 are known (RFC 1661 sections 5.7 to 5.9), which is so of LCP alone.
    const EXTENDED: bool;

    ghost PROTOCOL: { ℕ };

    ghost EXTENDED: { Bool };

    // what the methods answer
    ghost table: { Self → Table };

    // the lists that this end may send, the options that it never accepts, and the peer's lists that it acknowledges
    // against an own list
    ghost sendable: { Self → List ConfigOption → Type 0 };

    ghost unknown: { Self → ConfigOption → Type 0 };

    ghost allows: { Self → List ConfigOption → List ConfigOption → Type 0 };

    // whether the lists of the two ends fit
    ghost compat: { List ConfigOption → List ConfigOption → Type 0 };

    /// The list that is asked for first.
    fn initial(&self, word: u64) -> OptList
        ensures { result ≡ (table self.now).initial word };

    /// What is thought of an option that the peer asks for, against the own list.
    fn judge(&self, own: &OptList, option: OptRef<'_>, word: u64) -> Verdict
        ensures { result ≡ (table self.now).judge own.now (option_seen option.entry) word };

    /// The option that the peer's list has to have and lacks, against the own list.
    fn missing(&self, own: &OptList, theirs: &Options<'_>, word: u64) -> Option<Opt>
        ensures { result ≡ (table self.now).missing own.now theirs.now word };

    /// The list that is asked for next, after a Configure-Nak of the last one.
    fn adapt_nak(&self, last: &OptList, nak: &Options<'_>, word: u64) -> OptList
        ensures { result ≡ (table self.now).adapt_nak last.now nak.now word };

    /// The list that is asked for next, after a Configure-Reject of the last one.
    fn adapt_reject(&self, last: &OptList, reject: &Options<'_>, word: u64) -> OptList
        ensures { result ≡ (table self.now).adapt_reject last.now reject.now word };

    /// The Magic-Number of the own list, or 0.
    fn magic(&self, mine: &OptList) -> u32
        ensures { result ≡ (table self.now).magic mine.now };

    ghost lawful: { (it : Self) → Lawful (table it) (sendable it) (unknown it) (allows it) compat };

    ghost extends: { (it : Self) → (table it).extended ≡ EXTENDED };
}
