//! Lists of Configuration Options that lie in octets (RFC 1661 section 6).

ghost use Rattle.std.specs.Prelude.{◌≡◌, ◌+◌, ◌<◌, ◌≤◌, ◌↔◌, List, [], ◌∷◌, ◌++◌, length, IsTrue, IfSome, IfNone, MatchOption, Some, slice_get, None, is_some};
ghost use Rattle.ppp_packet.specs.ConfigOption.{ConfigOption};
ghost use Rattle.ppp_packet.specs.Options.{written, option_octets, IsOptions, HoldsOptions, options_of, list_of};
ghost use Rattle.ppp_packet.specs.declared.options.TheConstants.{MOST_BODY};
ghost use Rattle.ppp_packet.specs.OptRef.{option_seen};

use crate::opt_ref::OptRef;
use std::marker::Model;

/// The octets of an option's Type and Length.
pub const OPTION_HEADER: usize = 2;

/// The most octets of an option's body: the Length, of one octet, counts Type and Length too.
pub const MOST_BODY: usize = 253;

/// Octets that are a list of options, seen as that list.
#[derive(Clone, Debug, Drop)]
pub struct Options<'a> {
    octets: &'a [u8],
}

impl<'a> Model for Options<'a> {
    ghost use Rattle.std.specs.Prelude.{List};
    ghost use Rattle.ppp_packet.specs.ConfigOption.{ConfigOption};
    ghost use Rattle.ppp_packet.specs.Options.{list_of, HoldsOptions};

    ghost Value = { List ConfigOption };

    ghost view = { λ o. list_of o.octets.now };

    ghost invariant = { λ o. HoldsOptions o.octets.now };
}

impl<'a> Options<'a> {
    /// The list that these octets are.
    pub(crate) fn over(octets: &'a [u8]) -> Options<'a>
        requires { HoldsOptions octets.now }
        ensures { result ≡ list_of octets.now }
    {
        Options { octets }
    }

    /// How many options the list has.
    pub fn count(&self) -> usize
        ensures { result ≡ length self.now }
    {
        count_in(self.octets)
    }

    /// The option at place `i`, from 0 on.
    pub fn at(&self, i: usize) -> OptRef<'a>
        requires { i < length self.now }
        ensures option { slice_get self.now i ≡ Some (option_seen result) }
        ensures size { length result.body.now ≤ MOST_BODY }
    {
        option_at(self.octets, i)
    }

    /// The octets of the list.
    pub fn octets(&self) -> &'a [u8]
        ensures { result.now ≡ written self.now }
    {
        self.octets
    }

    /// Whether the list has no option.
    pub fn is_empty(&self) -> bool
        ensures { IsTrue result ↔ (self.now ≡ []) }
    {
        self.octets.is_empty()
    }

    /// The first option and the list of the others. None exactly where the list has no option.
    pub fn split_first(&self) -> Option<(OptRef<'a>, Options<'a>)>
        ensures parts { MatchOption result (self.now ≡ []) (λ r. self.now ≡ option_seen r.0 ∷ r.1) }
        ensures size { IfSome result (λ r. length r.0.body.now ≤ MOST_BODY) }
    {
        let (option, behind) = first_of_list(self.octets)?;
        Some((option, Options { octets: behind }))
    }

    /// The same list.
    pub fn copied(&self) -> Options<'a>
        ensures { result ≡ self.now }
    {
        Options {
            octets: self.octets,
        }
    }
}

/// Reads octets as a list of options (RFC 1661 section 6).
/// None exactly where they aren't one: a Length below 2, or above what is left.
pub fn read_options(bytes: &[u8]) -> Option<Options<'_>>
    ensures some { IfSome result (λ list. IsOptions list bytes.now) }
    ensures none { IfNone result ((list : List ConfigOption) → IsOptions list bytes.now → ⊥) }
    ensures exact { result ≡ options_of bytes.now }
{
    if holds_options(bytes) {
        Some(Options { octets: bytes })
    } else {
        None
    }
}

/// Whether octets are a list of options.
fn holds_options(bytes: &[u8]) -> bool
    ensures { result ≡ is_some (options_of bytes.now) }
{
    let mut left = bytes;
    'options: while !left.is_empty() {
        match first_option(left) {
            Some((_, behind)) => left = behind,
            None => return false,
        }
    }
    true
}

/// The option that octets begin with, and the octets behind it.
fn first_option(octets: &[u8]) -> Option<(OptRef<'_>, &[u8])>
    requires { 0 < length octets.now }
    ensures begins { IfSome result (λ r. octets.now ≡ option_octets (option_seen r.0) ++ r.1.now) }
    ensures size { IfSome result (λ r. length r.0.body.now ≤ MOST_BODY) }
    ensures none { IfNone result (options_of octets.now ≡ None) }
{
    if octets.len() < OPTION_HEADER {
        return None;
    }
    let size = usize::from(octets[1]);
    if size < OPTION_HEADER || octets.len() < size {
        return None;
    }
    let (option, behind) = octets.split_at(size);
    let (header, body) = option.split_at(OPTION_HEADER);
    Some((
        OptRef {
            kind: header[0],
            body,
        },
        behind,
    ))
}

/// The first option of a list in octets, and the octets of the others.
fn first_of_list(octets: &[u8]) -> Option<(OptRef<'_>, &[u8])>
    requires { HoldsOptions octets.now }
    ensures parts { MatchOption result (list_of octets.now ≡ [])
        (λ r. list_of octets.now ≡ option_seen r.0 ∷ list_of r.1.now) }
    ensures holds { IfSome result (λ r. HoldsOptions r.1.now) }
    ensures shorter { IfSome result (λ r. length r.1.now < length octets.now) }
    ensures size { IfSome result (λ r. length r.0.body.now ≤ MOST_BODY) }
{
    if octets.is_empty() {
        return None;
    }
    first_option(octets)
}

/// How many options a list in octets has.
fn count_in(octets: &[u8]) -> usize
    requires { HoldsOptions octets.now }
    ensures { result ≡ length (list_of octets.now) }
{
    let mut count = 0;
    let mut left = octets;
    'options: while let Some((_, behind)) = first_of_list(left) {
        count += 1;
        left = behind;
    }
    count
}

/// The option at place `i` of a list in octets.
fn option_at(octets: &[u8], i: usize) -> OptRef<'_>
    requires holds { HoldsOptions octets.now }
    requires within { i < length (list_of octets.now) }
    ensures option { slice_get (list_of octets.now) i ≡ Some (option_seen result) }
    ensures size { length result.body.now ≤ MOST_BODY }
{
    let mut ahead = i;
    let mut left = octets;
    'options: while let Some((option, behind)) = first_of_list(left) {
        if ahead == 0 {
            return option;
        }
        ahead -= 1;
        left = behind;
    }
    unreachable!()
}
