//! The lists that an end asks for: the first one, and what a Configure-Nak or a Configure-Reject makes of the last one.

ghost use Rattle.std.specs.Prelude.{◌≡◌, ◌+◌, ◌≤◌, [], ◌∷◌, ◌++◌, length, MatchOption, Some, None};
ghost use Rattle.ppp_packet.specs.ConfigOption.{ConfigOption};
ghost use Rattle.ppp_packet.specs.Options.{written, option_with, find_kind};
ghost use Rattle.ppp_packet.specs.OptRef.{option_seen};
ghost use Rattle.ppp_packet.specs.declared.opt_list.TheConstants.{MOST_LIST};
ghost use Rattle.ppp_auto.specs.Reply.{has_kind};
ghost use Rattle.ppp_options.specs.Number.{body_of, number_of};
ghost use Rattle.ppp_options.specs.declared.number.TheConstants.{OCTETS_U32, OCTETS_U64};
ghost use Rattle.ppp_options.specs.Rules.{initial, option_after, adapt_nak, without};

use crate::number::{OCTETS_U32, OCTETS_U64, number_u32, number_u64};
use crate::option_rules::OptionRules;
use ppp_packet::{OptList, OptRef, Options};

/// The list that is asked for first: the options of the rows, in ascending Types.
pub fn first_list<T: OptionRules>(table: &T, word: u64) -> OptList
    ensures { result ≡ initial (T.rules table.now) word }
{
    let mut list = OptList::new();
    let mut left = table.kinds();
    'rows: while let Some((kind, behind)) = left.split_first() {
        if let Some(option) = table.first(*kind, word) {
            put(&mut list, option.kind(), option.body());
        }
        left = behind;
    }
    list
}

/// The list that is asked for after a Configure-Nak (RFC 1661 section 5.3): the first option of a Type counts.
pub fn list_after_nak<T: OptionRules>(
    table: &T,
    last: &OptList,
    nak: &Options<'_>,
    word: u64,
) -> OptList
    ensures { result ≡ adapt_nak (T.rules table.now) last.now nak.now word }
{
    let mut list = OptList::new();
    let mut left = options_of(last);
    'options: while let Some((option, behind)) = left.split_first() {
        put_after_nak(&mut list, table, option, nak, word);
        left = behind;
    }
    list
}

/// The list without the Types of a Configure-Reject (RFC 1661 section 5.4).
pub fn list_after_reject(last: &OptList, reject: &Options<'_>) -> OptList
    ensures { result ≡ without last.now reject.now }
{
    let mut list = OptList::new();
    let mut left = options_of(last);
    'options: while let Some((option, behind)) = left.split_first() {
        if !has_option(reject, option.kind) {
            put(&mut list, option.kind, option.body);
        }
        left = behind;
    }
    list
}

/// The body of the first option of this Type. None exactly where the list has no option of it.
pub fn first_of<'a>(list: &Options<'a>, kind: u8) -> Option<&'a [u8]>
    ensures { MatchOption result (find_kind kind list.now ≡ None)
        (λ body. find_kind kind list.now ≡ Some body.now) }
{
    let mut left = list.copied();
    'options: while let Some((option, behind)) = left.split_first() {
        if option.kind == kind {
            return Some(option.body);
        }
        left = behind;
    }
    None
}

/// The body of the first option of this Type with that many octets. None exactly where the list has none.
pub fn sized_of<'a>(list: &Options<'a>, kind: u8, size: usize) -> Option<&'a [u8]>
    ensures { MatchOption result (body_of kind size list.now ≡ None)
        (λ body. body_of kind size list.now ≡ Some body.now × (length body.now ≡ size)) }
{
    let mut left = list.copied();
    'options: while let Some((option, behind)) = left.split_first() {
        if option.kind == kind && option.body.len() == size {
            return Some(option.body);
        }
        left = behind;
    }
    None
}

/// The number of the first option of this Type that has four octets, or 0.
pub fn number_of_u32(list: &OptList, kind: u8) -> u32
    ensures { result ≡ number_of kind OCTETS_U32 list.now }
{
    match sized_of(&list.options(), kind, OCTETS_U32) {
        Some(body) => number_u32(body),
        None => 0,
    }
}

/// The number of the first option of this Type that has eight octets, or 0.
pub fn number_of_u64(list: &OptList, kind: u8) -> u64
    ensures { result ≡ number_of kind OCTETS_U64 list.now }
{
    match sized_of(&list.options(), kind, OCTETS_U64) {
        Some(body) => number_u64(body),
        None => 0,
    }
}

/// The options of a list, for reading.
fn options_of(list: &OptList) -> Options<'_>
    ensures value { result ≡ list.now }
    ensures size { length (written result) ≤ MOST_LIST }
{
    prove!(list.octets().len() <= 128);
    list.options()
}

/// Puts an option at the end of a list that has room for it.
fn put(list: &mut OptList, kind: u8, body: &[u8])
    requires room { length (written list.old) + (2 + length body.now) ≤ MOST_LIST }
    ensures { list.new ≡ list.old ++ option_with kind body.now ∷ [] }
{
    list.push(kind, body).unwrap();
}

/// Whether a list has an option of this Type.
pub fn has_option(list: &Options<'_>, kind: u8) -> bool
    ensures { result ≡ has_kind kind list.now }
{
    first_of(list, kind).is_some()
}

/// Puts what a Nak makes of an own option at the end of a list that has room for the option.
fn put_after_nak<T: OptionRules>(
    list: &mut OptList,
    table: &T,
    option: OptRef<'_>,
    nak: &Options<'_>,
    word: u64,
)
    requires room { length (written list.old) + (2 + length option.body.now) ≤ MOST_LIST }
    ensures { list.new ≡ list.old
        ++ option_after (T.rules table.now) nak.now word (option_seen option.entry) ∷ [] }
{
    match first_of(nak, option.kind) {
        Some(body) if table.is_sent(option) => {
            let after = table.after_nak(option, body, word);
            put(list, option.kind, after.body());
        }
        _ => put(list, option.kind, option.body),
    }
}
