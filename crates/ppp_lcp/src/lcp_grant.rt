//! What a list of LCP's options grants.

ghost use Rattle.std.specs.Prelude.{◌≡◌, length, is_some};
ghost use Rattle.std.specs.Option.{option_map, unwrap_or};
ghost use Rattle.ppp_options.specs.Number.{number, body_of};
ghost use Rattle.ppp_options.specs.declared.number.TheConstants.{OCTETS_U16, OCTETS_U32};
ghost use Rattle.ppp_lcp.specs.LcpGrant as spec;
ghost use Rattle.ppp_lcp.specs.LcpKind.{kind_number};
ghost use Rattle.ppp_lcp.specs.declared.lcp_kind.LcpKind.TheVariants as kind;
ghost use Rattle.ppp_lcp.specs.declared.lcp_table.TheConstants.{DEFAULT_ACCM, DEFAULT_MRU};

use crate::lcp_kind::LcpKind;
use crate::lcp_table::{DEFAULT_ACCM, DEFAULT_MRU, FORM_OCTETS, SHORT_CODE};
use crate::rows::is_disc;
use ppp_options::{OCTETS_U16, OCTETS_U32, number_u16, number_u32, sized_of};
use ppp_packet::{Disc, OptList, Options};

/// What a list of options grants the end that asked for them. What isn't in the list is as if it wasn't negotiated.
#[derive(Clone, Copy, Debug, PartialEq, Eq)]
pub struct LcpGrant {
    /// The Maximum-Receive-Unit in octets, else 1,500.
    pub mru: u16,
    /// The octets below 0x20 that are escaped, else all.
    pub accm: u32,
    /// The Magic-Number, else 0.
    pub magic: u32,
    /// The Maximum-Reconstructed-Receive-Unit in octets, else 0: no multilink.
    pub mrru: u16,
    /// Whether multilink headers are short.
    pub short: bool,
    /// The count of classes, else 0: there is but one.
    pub classes: u8,
    /// The endpoint discriminator, else the null one.
    pub disc: Disc,
    /// The number of the link, if it has one.
    pub link_disc: Option<u16>,
    /// Whether the first octet of a protocol may be left out.
    pub pfc: bool,
    /// Whether address and control may be left out.
    pub acfc: bool,
}

/// What a list grants: of each Type the first option with its right Length counts, and of endpoint discriminators the
/// first with a class and an address of its length.
pub fn grant_of(list: &OptList) -> LcpGrant
    ensures mru { result.mru ≡ unwrap_or (spec.granted kind.Mru OCTETS_U16 list.now) DEFAULT_MRU }
    ensures accm { result.accm ≡ unwrap_or (spec.granted kind.Accm OCTETS_U32 list.now) DEFAULT_ACCM }
    ensures magic { result.magic ≡ unwrap_or (spec.granted kind.Magic OCTETS_U32 list.now) 0 }
    ensures mrru { result.mrru ≡ unwrap_or (spec.granted kind.Mrru OCTETS_U16 list.now) 0 }
    ensures short { result.short ≡ spec.is_short list.now }
    ensures classes { result.classes ≡ spec.count_by (spec.granted_form list.now) }
    ensures disc { spec.disc_seen result.disc ≡ spec.granted_disc list.now }
    ensures link_disc { result.link_disc ≡ spec.granted kind.LinkDisc OCTETS_U16 list.now }
    ensures pfc { result.pfc ≡ spec.is_granted kind.Pfc list.now }
    ensures acfc { result.acfc ≡ spec.is_granted kind.Acfc list.now }
{
    let options = list.options();
    let (short, classes) = form_in(&options);
    LcpGrant {
        mru: number_in(&options, LcpKind::Mru).unwrap_or(DEFAULT_MRU),
        accm: long_in(&options, LcpKind::Accm).unwrap_or(DEFAULT_ACCM),
        magic: long_in(&options, LcpKind::Magic).unwrap_or(0),
        mrru: number_in(&options, LcpKind::Mrru).unwrap_or(0),
        short,
        classes,
        disc: disc_in(&options),
        link_disc: number_in(&options, LcpKind::LinkDisc),
        pfc: has_flag(&options, LcpKind::Pfc),
        acfc: has_flag(&options, LcpKind::Acfc),
    }
}

/// Whether headers are short, and the count of classes.
fn form_in(list: &Options<'_>) -> (bool, u8)
    ensures short { result.0 ≡ spec.is_short list.now }
    ensures classes { result.1 ≡ spec.count_by (spec.granted_form list.now) }
{
    match sized_of(list, LcpKind::Classes.number(), FORM_OCTETS) {
        Some(form) => (form[0] == SHORT_CODE, form[1]),
        None => (has_flag(list, LcpKind::Short), 0),
    }
}

/// The number of two octets of the first option of this Type that has them.
fn number_in(list: &Options<'_>, kind: LcpKind) -> Option<u16>
    ensures { result ≡ spec.granted kind OCTETS_U16 list.now }
{
    match sized_of(list, kind.number(), OCTETS_U16) {
        Some(body) => Some(number_u16(body)),
        None => None,
    }
}

/// The number of four octets of the first option of this Type that has them.
fn long_in(list: &Options<'_>, kind: LcpKind) -> Option<u32>
    ensures { result ≡ spec.granted kind OCTETS_U32 list.now }
{
    match sized_of(list, kind.number(), OCTETS_U32) {
        Some(body) => Some(number_u32(body)),
        None => None,
    }
}

/// Whether an option of this Type is there without a body.
fn has_flag(list: &Options<'_>, kind: LcpKind) -> bool
    ensures { result ≡ spec.is_granted kind list.now }
{
    sized_of(list, kind.number(), 0).is_some()
}

/// The first endpoint discriminator with a class and an address of its length, else the null one.
fn disc_in(list: &Options<'_>) -> Disc
    ensures { spec.disc_seen result ≡ spec.granted_disc list.now }
{
    let mut left = list.copied();
    'options: while let Some((option, behind)) = left.split_first() {
        if option.kind == LcpKind::Disc.number() && is_disc(option.body) {
            return Disc::new(option.body[0], &option.body[1..]);
        }
        left = behind;
    }
    Disc::new(0, &[])
}
