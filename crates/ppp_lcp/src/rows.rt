//! LCP's rows in code: what an [`LcpTable`] makes of the options of each Type.

ghost use Rattle.std.specs.Prelude.{◌≡◌, ◌≢◌, ◌≤◌, ℕ, true, refl, if◌then◌else◌, List, [], ◌∷◌, length, IsTrue};
ghost use Rattle.ppp_packet.specs.DiscClass.{is_good_disc};
ghost use Rattle.ppp_packet.specs.Options.{option_with};
ghost use Rattle.ppp_packet.specs.Packet.{two_octets};
ghost use Rattle.ppp_packet.specs.OptRef.{option_seen};
ghost use Rattle.ppp_packet.specs.Proto.{proto_number};
ghost use Rattle.ppp_packet.specs.declared.proto.Proto.TheVariants.{Lcp};
ghost use Rattle.ppp_auto.specs.Taken.{four_octets};
ghost use Rattle.ppp_options.specs.DiffersLaw.{differs-both_ways};
ghost use Rattle.ppp_options.specs.declared.number.TheConstants.{OCTETS_U32};
ghost use Rattle.ppp_options.specs.RuleLaw.{rules_lawful};
ghost use Rattle.ppp_options.specs.Rules.{first_option, verdict, table_by, Sendable, IsUnknown, Allows};
ghost use Rattle.ppp_lcp.specs.LcpKind.{kind_number};
ghost use Rattle.ppp_lcp.specs.LcpLaw.{lcp_is_table, lcp_fits, table_ranged};
ghost use Rattle.ppp_lcp.specs.LcpRanges.{is_disc_body, is_classes_body};
ghost use Rattle.ppp_lcp.specs.LcpSettings.{LcpSettings, settings_seen};
ghost use Rattle.ppp_lcp.specs.LcpTable as spec;
ghost use Rattle.ppp_lcp.specs.declared.lcp_kind.LcpKind.TheVariants.{Accm, Magic, Disc, Classes};

use crate::lcp_kind::LcpKind;
use crate::lcp_table::{
    DEFAULT_ACCM, DEFAULT_MRU, FORM_OCTETS, LEAST_MRRU, LEAST_MRU, LONG_CODE, LcpTable,
    MOST_LONG_CLASSES, MOST_MRRU, MOST_MRU, MOST_SHORT_CLASSES, SHORT_CODE,
};
use ppp_auto::{OptionTable, Verdict};
use ppp_options::{
    OCTETS_U16, OCTETS_U32, OptionRules, first_list, is_new_u32, is_within_u16, list_after_nak,
    list_after_reject, number_of_u32, number_taken, number_u16, number_u32, octets_u16, octets_u32,
    pick,
};
use ppp_packet::{DiscClass, MOST_ADDRESS, Opt, OptList, OptRef, Options};

/// LCP's Types, in ascending order.
const KINDS: [u8; 10] = [1, 2, 5, 7, 8, 17, 18, 19, 23, 27];

impl OptionRules for LcpTable {
    ghost rules = { λ t. spec.lcp_rules (settings_seen t) };

    fn kinds(&self) -> &[u8] {
        &KINDS
    }

    fn first(&self, kind: u8, word: u64) -> Option<Opt> {
        match LcpKind::try_from(kind) {
            Ok(kind) => self.first_of(kind, word),
            Err(_) => None,
        }
    }

    fn is_sent(&self, option: OptRef<'_>) -> bool {
        match LcpKind::try_from(option.kind) {
            Ok(kind) => is_sent(kind, option.body),
            Err(_) => false,
        }
    }

    fn after_nak(&self, option: OptRef<'_>, nak: &[u8], word: u64) -> Opt {
        match LcpKind::try_from(option.kind) {
            Ok(kind) => self.after(kind, option.body, nak, word),
            Err(_) => unreachable!(),
        }
    }

    ghost is_table = { λ t. lcp_is_table (settings_seen t) (table_ranged t) };
}

impl OptionTable for LcpTable {
    const PROTOCOL: u16 = 0xc021;

    ghost PROTOCOL = { proto_number Lcp };

    const EXTENDED: bool = true;

    ghost EXTENDED = { true };

    ghost table = { λ t. table_by true (spec.lcp_rules (settings_seen t)) spec.magic_of };

    ghost sendable = { λ t. Sendable (spec.lcp_rules (settings_seen t)) };

    ghost unknown = { λ t. IsUnknown (spec.lcp_rules (settings_seen t)) };

    ghost allows = { λ t. Allows (spec.lcp_rules (settings_seen t)) };

    ghost compat = { spec.FitsMagic };

    fn initial(&self, word: u64) -> OptList {
        first_list(self, word)
    }

    fn judge(&self, own: &OptList, option: OptRef<'_>, word: u64) -> Verdict {
        match LcpKind::try_from(option.kind) {
            Ok(kind) => self.verdict(kind, own, option.body, word),
            Err(_) => Verdict::Unknown,
        }
    }

    fn missing(&self, _own: &OptList, _theirs: &Options<'_>, _word: u64) -> Option<Opt> {
        None
    }

    fn adapt_nak(&self, last: &OptList, nak: &Options<'_>, word: u64) -> OptList {
        list_after_nak(self, last, nak, word)
    }

    fn adapt_reject(&self, last: &OptList, reject: &Options<'_>, _word: u64) -> OptList {
        list_after_reject(last, reject)
    }

    fn magic(&self, mine: &OptList) -> u32 {
        number_of_u32(mine, LcpKind::Magic.number())
    }

    ghost lawful = { λ t. rules_lawful true (spec.lcp_rules (settings_seen t)) spec.magic_of spec.FitsMagic (lcp_is_table (settings_seen t) (table_ranged t))
        (lcp_fits (settings_seen t)) (differs-both_ways (kind_number Magic) OCTETS_U32) };

    ghost extends = { λ t. refl };
}

impl LcpTable {
    /// The option of this Type that is asked for first, if one is.
    fn first_of(&self, kind: LcpKind, word: u64) -> Option<Opt>
        ensures { result ≡ first_option (spec.lcp_rule (settings_seen self.now) kind) word }
    {
        match kind {
            LcpKind::Mru => (self.mru != DEFAULT_MRU).then_some(number_option(kind, self.mru)),
            LcpKind::Accm => (self.accm != DEFAULT_ACCM).then_some(long_option(kind, self.accm)),
            LcpKind::Magic => self.magic.then_some(long_option(kind, pick(word, 0))),
            LcpKind::Pfc => self.pfc.then_some(flag(kind)),
            LcpKind::Acfc => self.acfc.then_some(flag(kind)),
            LcpKind::Mrru => self
                .is_multilink()
                .then_some(number_option(kind, self.mrru)),
            LcpKind::Short => (self.short && self.is_multilink()).then_some(flag(kind)),
            LcpKind::Disc => (self.disc.class != 0).then_some(self.disc_option()),
            LcpKind::LinkDisc => self.link_disc_option(),
            LcpKind::Classes => self.has_classes().then_some(self.classes_option()),
        }
    }

    /// What is thought of a peer's option of this Type.
    fn verdict(&self, kind: LcpKind, own: &OptList, body: &[u8], word: u64) -> Verdict
        ensures { result ≡ verdict (spec.lcp_rule (settings_seen self.now) kind) own.now body.now word }
    {
        if !self.is_known(kind) {
            Verdict::Unknown
        } else if is_good(kind, own, body) {
            Verdict::Good
        } else {
            Verdict::Bad(better(kind, own, body, word))
        }
    }

    /// Whether a peer's options of this Type are known.
    fn is_known(&self, kind: LcpKind) -> bool
        ensures { (body : List ℕ) → result ≡ (spec.lcp_rule (settings_seen self.now) kind).is_known body }
    {
        match kind {
            LcpKind::Mrru | LcpKind::Short => self.is_multilink(),
            LcpKind::Classes => self.has_classes(),
            _ => true,
        }
    }

    /// What a Configure-Nak with a body makes of an own option of this Type that may be asked for.
    fn after(&self, kind: LcpKind, last: &[u8], nak: &[u8], word: u64) -> Opt
        requires { IsTrue ((spec.lcp_rule (settings_seen self.now) kind).is_sent last.now) }
        ensures { result ≡ option_with (kind_number kind)
            ((spec.lcp_rule (settings_seen self.now) kind).after last.now nak.now word) }
    {
        match kind {
            LcpKind::Accm => accm_after(last, nak),
            LcpKind::Magic => number_taken(kind.number(), last, nak, word),
            _ => Opt::new(kind.number(), self.body_after(kind, last, nak)),
        }
    }

    /// The body of an own option after a Configure-Nak, where it is one of the two.
    fn body_after<'a>(&self, kind: LcpKind, last: &'a [u8], nak: &'a [u8]) -> &'a [u8]
        requires accm { kind ≢ Accm }
        requires magic { kind ≢ Magic }
        ensures { (word : ℕ) → result.now
            ≡ (spec.lcp_rule (settings_seen self.now) kind).after last.now nak.now word }
    {
        if self.takes(kind, nak) { nak } else { last }
    }

    /// Whether a Configure-Nak's body is taken as it is, in the place of an own one.
    fn takes(&self, kind: LcpKind, nak: &[u8]) -> bool
        requires accm { kind ≢ Accm }
        requires magic { kind ≢ Magic }
        ensures { (last : List ℕ) (word : ℕ) → (spec.lcp_rule (settings_seen self.now) kind).after last nak.now word
            ≡ (if result then nak.now else last) }
    {
        match kind {
            LcpKind::Mru => is_within_u16(LEAST_MRU, MOST_MRU, nak),
            LcpKind::Mrru => is_within_u16(LEAST_MRRU, self.mrru, nak),
            LcpKind::Classes => self.is_own_form(nak),
            _ => false,
        }
    }

    /// Whether this end does multilink.
    fn is_multilink(&self) -> bool
        ensures { result ≡ spec.is_multilink (settings_seen self.now) }
    {
        self.mrru != 0
    }

    /// Whether it takes classes.
    fn has_classes(&self) -> bool
        ensures { result ≡ spec.has_classes (settings_seen self.now) }
    {
        self.classes != 0 && self.is_multilink()
    }

    /// The code of the own multilink headers with classes.
    fn own_code(&self) -> u8
        ensures { result ≡ spec.own_code (settings_seen self.now) }
    {
        if self.short { SHORT_CODE } else { LONG_CODE }
    }

    /// Whether a body has the own code with at most the own count of classes.
    fn is_own_form(&self, body: &[u8]) -> bool
        ensures { result ≡ spec.is_own_form (settings_seen self.now) body.now }
    {
        body.len() == FORM_OCTETS
            && body[0] == self.own_code()
            && (1..=self.classes).contains(&body[1])
    }

    /// The option of the own endpoint discriminator.
    fn disc_option(&self) -> Opt
        ensures { result ≡ option_with (kind_number Disc) (spec.disc_body (settings_seen self.now)) }
    {
        let mut body = [0; 1 + MOST_ADDRESS];
        let size = usize::from(self.disc.size);
        body[0] = self.disc.class;
        body[1..=size].copy_from_slice(self.disc.address());
        Opt::new(LcpKind::Disc.number(), &body[..=size])
    }

    /// The option of the own number of the link, if it has one.
    fn link_disc_option(&self) -> Option<Opt>
        ensures { result ≡ first_option (spec.link_disc_rule (settings_seen self.now)) 0 }
    {
        match self.link_disc {
            Some(number) => Some(number_option(LcpKind::LinkDisc, number)),
            None => None,
        }
    }

    /// The option of the own count of classes.
    fn classes_option(&self) -> Opt
        ensures { result ≡ option_with (kind_number Classes)
            (spec.own_code (settings_seen self.now) ∷ self.now.classes ∷ []) }
    {
        Opt::new(LcpKind::Classes.number(), &[self.own_code(), self.classes])
    }
}

/// Whether an own option of this Type may be asked for.
fn is_sent(kind: LcpKind, body: &[u8]) -> bool
    ensures { (t : LcpSettings) → result ≡ (spec.lcp_rule t kind).is_sent body.now }
{
    match kind {
        LcpKind::Mru => is_within_u16(LEAST_MRU, MOST_MRU, body),
        LcpKind::Accm => body.len() == OCTETS_U32,
        LcpKind::Magic => is_new_u32(0, body),
        LcpKind::Pfc | LcpKind::Acfc | LcpKind::Short => body.is_empty(),
        LcpKind::Mrru => is_within_u16(LEAST_MRRU, MOST_MRRU, body),
        LcpKind::Disc => is_disc(body),
        LcpKind::LinkDisc => body.len() == OCTETS_U16,
        LcpKind::Classes => is_form(body),
    }
}

/// Whether a peer's option of this Type, which is known, is good.
fn is_good(kind: LcpKind, own: &OptList, body: &[u8]) -> bool
    ensures { (t : LcpSettings) → result ≡ (spec.lcp_rule t kind).is_good own.now body.now }
{
    match kind {
        LcpKind::Mru => body.len() == OCTETS_U16 && LEAST_MRU <= number_u16(body),
        LcpKind::Accm => body.len() == OCTETS_U32,
        LcpKind::Magic => is_new_u32(number_of_u32(own, kind.number()), body),
        LcpKind::Pfc | LcpKind::Acfc | LcpKind::Short => body.is_empty(),
        LcpKind::Mrru => body.len() == OCTETS_U16 && LEAST_MRRU <= number_u16(body),
        LcpKind::Disc => is_disc(body),
        LcpKind::LinkDisc => body.len() == OCTETS_U16,
        LcpKind::Classes => is_form(body),
    }
}

/// What is suggested in the place of a peer's option of this Type that isn't good.
fn better(kind: LcpKind, own: &OptList, body: &[u8], word: u64) -> Opt
    ensures { (t : LcpSettings) → result
        ≡ option_with (kind_number kind) ((spec.lcp_rule t kind).better own.now body.now word) }
{
    match kind {
        LcpKind::Mru if body.len() == OCTETS_U16 => number_option(kind, LEAST_MRU),
        LcpKind::Mru => number_option(kind, DEFAULT_MRU),
        LcpKind::Accm => long_option(kind, DEFAULT_ACCM),
        LcpKind::Magic => long_option(kind, pick(word, number_of_u32(own, kind.number()))),
        LcpKind::Pfc | LcpKind::Acfc | LcpKind::Short => flag(kind),
        LcpKind::Mrru => number_option(kind, LEAST_MRRU),
        LcpKind::Disc => Opt::new(kind.number(), &[0]),
        LcpKind::LinkDisc => number_option(kind, 0),
        LcpKind::Classes => better_form(body),
    }
}

/// The option of a map after a Configure-Nak, which adds the octets that the peer wants escaped.
fn accm_after(last: &[u8], nak: &[u8]) -> Opt
    requires { length last.now ≡ OCTETS_U32 }
    ensures { result ≡ option_with (kind_number Accm) (spec.accm_after last.now nak.now) }
{
    if nak.len() == OCTETS_U32 {
        long_option(LcpKind::Accm, number_u32(last) | number_u32(nak))
    } else {
        Opt::new(LcpKind::Accm.number(), last)
    }
}

/// Whether a body is an endpoint discriminator: a class, and an address of its length.
pub(crate) fn is_disc(body: &[u8]) -> bool
    ensures { result ≡ is_disc_body body.now }
{
    match body.split_first() {
        Some((class, address)) => has_size(*class, address.len()),
        None => false,
    }
}

/// Whether an address of this class may have that many octets.
fn has_size(class: u8, size: usize) -> bool
    ensures { result ≡ is_good_disc class size }
{
    DiscClass::try_from(class).is_ok_and(|class| class.has_size(size))
}

/// Whether a body is a form of the multilink header that has room for its classes.
fn is_form(body: &[u8]) -> bool
    ensures { result ≡ is_classes_body body.now }
{
    body.len() == FORM_OCTETS
        && match body[0] {
            LONG_CODE => (1..=MOST_LONG_CLASSES).contains(&body[1]),
            SHORT_CODE => (1..=MOST_SHORT_CLASSES).contains(&body[1]),
            _ => false,
        }
}

/// The form that is suggested: the code that came, if it is one, with the nearest count that it has room for.
fn better_form(body: &[u8]) -> Opt
    ensures { result ≡ option_with (kind_number Classes) (spec.better_form body.now) }
{
    let form = if body.len() != FORM_OCTETS {
        [LONG_CODE, 1]
    } else if body[0] == SHORT_CODE {
        [SHORT_CODE, body[1].clamp(1, MOST_SHORT_CLASSES)]
    } else {
        [LONG_CODE, body[1].clamp(1, MOST_LONG_CLASSES)]
    };
    Opt::new(LcpKind::Classes.number(), &form)
}

/// An option with a number of two octets.
fn number_option(kind: LcpKind, number: u16) -> Opt
    ensures { result ≡ option_with (kind_number kind) (two_octets number) }
{
    Opt::new(kind.number(), &octets_u16(number))
}

/// An option with a number of four octets.
fn long_option(kind: LcpKind, number: u32) -> Opt
    ensures { result ≡ option_with (kind_number kind) (four_octets number) }
{
    Opt::new(kind.number(), &octets_u32(number))
}

/// An option without a body.
fn flag(kind: LcpKind) -> Opt
    ensures { result ≡ option_with (kind_number kind) [] }
{
    Opt::new(kind.number(), &[])
}
