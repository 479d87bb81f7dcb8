//! Lists of options by value.

ghost use Rattle.std.specs.Prelude.{◌≡◌, ◌≢◌, ◌+◌, ◌<◌, ◌≤◌, ◌↔◌, ◌⊎◌, [], ◌∷◌, ◌++◌, length, drop, IsTrue, IsErr, IsNone, OnOk, OnErr, IfOk, MatchOption, Some, None, All};
ghost use Rattle.ppp_packet.specs.Options.{written, option_octets, option_with, HoldsOptions, list_of, find_kind};
ghost use Rattle.ppp_packet.specs.OptList.{IsTooLong};
ghost use Rattle.ppp_packet.specs.declared.opt_list.TheConstants.{MOST_LIST};
ghost use Rattle.ppp_packet.specs.declared.options.TheConstants.{MOST_BODY, OPTION_HEADER};

use crate::options::{MOST_BODY, OPTION_HEADER, Options};
use arrayvec::ArrayVec;
use std::marker::Model;
use thiserror::Error;

/// The most octets that a kept list has when it is written.
pub const MOST_LIST: usize = 128;

/// A list of options doesn't take what it was to hold.
#[derive(Debug, Drop, Error)]
#[error("the list of options would pass 128 octets, or a body 253")]
pub struct NoRoom;

/// A list of options that has at most 128 octets when written, kept by value and seen as that list.
#[derive(Clone, Debug, Drop)]
pub struct OptList {
    octets: ArrayVec<u8, MOST_LIST>,
}

impl Model for OptList {
    ghost use Rattle.std.specs.Prelude.{List};
    ghost use Rattle.ppp_packet.specs.ConfigOption.{ConfigOption};
    ghost use Rattle.ppp_packet.specs.Options.{list_of, HoldsOptions};

    ghost Value = { List ConfigOption };

    ghost view = { λ l. list_of l.octets.items };

    ghost invariant = { λ l. HoldsOptions l.octets.items };
}

impl OptList {
    /// The list with no option.
    pub fn new() -> OptList
        ensures { result ≡ [] }
    {
        OptList {
            octets: ArrayVec::new(),
        }
    }

    /// Puts an option at the end. NoRoom exactly where its body has more than 253 octets or the list would
    /// have more than 128 when written; then the list stays as it was.
    pub fn push(&mut self, kind: u8, body: &[u8]) -> Result<(), NoRoom>
        ensures no_room { IsErr result ↔ IsTooLong self.old (option_with kind body.now) }
        ensures ok { OnOk result (self.new ≡ self.old ++ option_with kind body.now ∷ []) }
        ensures err { OnErr result (self.new ≡ self.old) }
    {
        push_octets(&mut self.octets, kind, body)
    }

    /// The same list, by value. NoRoom exactly where it has more than 128 octets.
    pub fn from_options(list: &Options<'_>) -> Result<OptList, NoRoom>
        ensures no_room { IsErr result ↔ (MOST_LIST < length (written list.now)) }
        ensures ok { IfOk result (λ kept. kept ≡ list.now) }
    {
        let mut octets = ArrayVec::new();
        match octets.try_extend_from_slice(list.octets()) {
            Ok(()) => Ok(OptList { octets }),
            Err(_) => Err(NoRoom),
        }
    }

    /// The body of the first option of this Type. None exactly where the list has no option of it.
    pub fn find(&self, kind: u8) -> Option<&[u8]>
        ensures first { MatchOption result (find_kind kind self.now ≡ None)
            (λ body. find_kind kind self.now ≡ Some body.now) }
        ensures none { IsNone result ↔ All (λ option. option.kind ≢ kind) self.now }
    {
        let mut left = self.options();
        'options: while let Some((option, behind)) = left.split_first() {
            if option.kind == kind {
                return Some(option.body);
            }
            left = behind;
        }
        None
    }

    /// The octets of the list, at most 128.
    pub fn octets(&self) -> &[u8]
        ensures value { result.now ≡ written self.now }
        ensures size { length result.now ≤ MOST_LIST }
    {
        self.octets.as_slice()
    }

    /// The list, for reading.
    pub fn options(&self) -> Options<'_>
        ensures { result ≡ self.now }
    {
        Options::over(self.octets.as_slice())
    }

    /// Whether the list has no option.
    pub fn is_empty(&self) -> bool
        ensures { IsTrue result ↔ (self.now ≡ []) }
    {
        self.octets.is_empty()
    }

    /// Whether this is that list: the same options in the same order.
    pub fn same_as(&self, list: &Options<'_>) -> bool
        ensures { IsTrue result ↔ (self.now ≡ list.now) }
    {
        self.octets() == list.octets()
    }

    /// The same list.
    pub fn copied(&self) -> OptList
        ensures { result ≡ self.now }
    {
        let mut octets = ArrayVec::new();
        octets
            .try_extend_from_slice(self.octets.as_slice())
            .unwrap();
        OptList { octets }
    }
}

/// Writes a list to the front of `out`, and answers how many octets it has. The octets behind it stay.
pub fn write_options(out: &mut [u8], list: &OptList) -> usize
    requires { length (written list.now) ≤ length out.old }
    ensures octets { out.new ≡ written list.now ++ drop result out.old }
    ensures size { result ≡ length (written list.now) }
{
    let octets = list.octets();
    out[..octets.len()].copy_from_slice(octets);
    octets.len()
}

/// Puts the octets of an option behind those of a list.
fn push_octets(octets: &mut ArrayVec<u8, MOST_LIST>, kind: u8, body: &[u8]) -> Result<(), NoRoom>
    ensures no_room { IsErr result ↔ ((MOST_BODY < length body.now)
        ⊎ (MOST_LIST < length octets.old.items + (OPTION_HEADER + length body.now))) }
    ensures ok { OnOk result
        (octets.new.items ≡ octets.old.items ++ option_octets (option_with kind body.now)) }
    ensures err { OnErr result (octets.new.items ≡ octets.old.items) }
{
    if body.len() > MOST_BODY || octets.len() + OPTION_HEADER + body.len() > MOST_LIST {
        return Err(NoRoom);
    }
    octets.push(kind);
    octets.push((OPTION_HEADER + body.len()) as u8);
    octets.try_extend_from_slice(body).unwrap();
    Ok(())
}
