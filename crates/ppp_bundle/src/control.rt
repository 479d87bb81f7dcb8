//! The control link of a bundle, by this project's own rule.

ghost use Rattle.std.specs.Prelude.{◌≡◌, ◌+◌, ◌<◌, ◌≤◌, length, map};
ghost use Rattle.std.specs.Option.{option_map};
ghost use Rattle.ppp_bundle.specs.BundleTable.{places_seen};
ghost use Rattle.ppp_bundle.specs.Bundles as spec;
ghost use Rattle.ppp_bundle.specs.JoinKey.{key_seen};
ghost use Rattle.ppp_bundle.specs.declared.limits.TheConstants.{MOST_LINKS};

use crate::join_key::JoinKey;
use crate::joined::{Joined, first_key, key_in};

/// A joined link that may be its bundle's control link.
#[derive(Clone, Copy)]
pub(crate) struct Candidate {
    /// Its number by the senior end, 0 to 65,536.
    pub(crate) number: u32,
    /// The link, 1 to 16.
    pub(crate) link: u8,
}

/// The control link of a bundle: the one with the least number by the senior end, the first of two with the same.
pub(crate) fn control_in(bundle: u8, places: &[Option<Joined>]) -> Option<u8>
    requires { length places.now ≤ MOST_LINKS }
    ensures { result ≡ spec.control_by (spec.keys_of bundle (places_seen places.now)) }
{
    let senior = is_senior_in(bundle, places);
    match least_in(bundle, senior, places) {
        Some(candidate) => Some(candidate.link),
        None => None,
    }
}

/// Whether this end is the senior one of a bundle, by the key of its first link.
fn is_senior_in(bundle: u8, places: &[Option<Joined>]) -> bool
    ensures { result ≡ spec.is_senior_by (spec.first_key_of bundle (places_seen places.now)) }
{
    match first_key(bundle, places) {
        Some(key) => key.is_senior(),
        None => false,
    }
}

/// Of the links of a bundle the one with the least number.
fn least_in(bundle: u8, senior: bool, places: &[Option<Joined>]) -> Option<Candidate>
    requires { length places.now ≤ MOST_LINKS }
    ensures { result ≡ spec.least_from senior 1 (spec.keys_of bundle (places_seen places.now)) }
{
    let mut least = None;
    let mut i = places.len();
    'places: while 0 < i {
        i -= 1;
        let key = key_in(bundle, &places[i]);
        least = first_of(numbered(senior, i as u8 + 1, &key), least);
    }
    least
}

/// A link of a bundle with its number.
fn numbered(senior: bool, link: u8, key: &Option<JoinKey>) -> Option<Candidate>
    ensures { result ≡ spec.numbered senior link (option_map key_seen key.now) }
{
    match key {
        Some(key) => Some(Candidate {
            number: key.number(senior),
            link,
        }),
        None => None,
    }
}

/// The one with the lesser number, and the first of two with the same.
fn first_of(one: Option<Candidate>, other: Option<Candidate>) -> Option<Candidate>
    ensures { result ≡ spec.first_of one other }
{
    match (one, other) {
        (Some(first), Some(second)) if second.number < first.number => Some(second),
        (Some(first), _) => Some(first),
        (None, other) => other,
    }
}
