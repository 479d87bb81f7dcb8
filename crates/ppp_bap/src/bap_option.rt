//! The options of BAP packets.

ghost use Rattle.std.specs.Prelude.{◌≡◌, ◌+◌, ◌≤◌, [], ◌∷◌, ◌++◌, length};
ghost use Rattle.ppp_packet.specs.Options.{option_with, written};
ghost use Rattle.ppp_packet.specs.declared.opt_list.TheConstants.{MOST_LIST};
ghost use Rattle.ppp_packet.specs.declared.options.TheConstants.{OPTION_HEADER};
ghost use Rattle.ppp_packet.specs.OptRef.{option_seen};
ghost use Rattle.ppp_bap.specs.BapOption.{are_fit, fit_options_of, is_fit, kind_number, read_kind};

use ppp_packet::{OptList, OptRef, Options, read_options};

/// The Type of an option (RFC 2125).
#[derive(Clone, Copy, Debug, PartialEq, Eq)]
pub(crate) enum BapOption {
    /// Type 1, Link-Type: the speed in kbit/s, and the kinds of link.
    LinkType,
    /// Type 2, Phone-Delta: which digits of a telephone number differ from another's.
    PhoneDelta,
    /// Type 3, No-Phone-Number-Needed.
    NoPhoneNumber,
    /// Type 4, Reason: a text.
    Reason,
    /// Type 5, Link-Discriminator: the receiver's own number of a link.
    LinkDiscriminator,
    /// Type 6, Call-Status: how a call went, and what is done next.
    CallStatus,
}

impl BapOption {
    /// The Type's number, 1 to 6.
    pub(crate) const fn number(self) -> u8
        ensures { result ≡ kind_number self }
    {
        match self {
            BapOption::LinkType => 1,
            BapOption::PhoneDelta => 2,
            BapOption::NoPhoneNumber => 3,
            BapOption::Reason => 4,
            BapOption::LinkDiscriminator => 5,
            BapOption::CallStatus => 6,
        }
    }

    /// The Type of a number: None where it is no known option's.
    pub(crate) const fn read(number: u8) -> Option<BapOption>
        ensures { result ≡ read_kind number }
    {
        match number {
            1 => Some(BapOption::LinkType),
            2 => Some(BapOption::PhoneDelta),
            3 => Some(BapOption::NoPhoneNumber),
            4 => Some(BapOption::Reason),
            5 => Some(BapOption::LinkDiscriminator),
            6 => Some(BapOption::CallStatus),
            _ => None,
        }
    }
}

/// Whether each option of a list has a body that its Type may have.
pub(crate) fn are_fit(options: &Options<'_>) -> bool
    ensures { result ≡ are_fit options.now }
{
    let mut left = options.copied();
    'options: while let Some((option, behind)) = left.split_first() {
        if !is_fit(&option) {
            return false;
        }
        left = behind;
    }
    true
}

/// Whether an option has a body that its Type may have.
fn is_fit(option: &OptRef<'_>) -> bool
    ensures { result ≡ is_fit (option_seen option.now) }
{
    match BapOption::read(option.kind) {
        Some(BapOption::LinkType) => option.body.len() == 3,
        Some(BapOption::PhoneDelta) => read_options(option.body).is_some(),
        Some(BapOption::NoPhoneNumber) => option.body.is_empty(),
        Some(BapOption::LinkDiscriminator) | Some(BapOption::CallStatus) => option.body.len() == 2,
        Some(BapOption::Reason) | None => true,
    }
}

/// Reads octets as options whose bodies are as their Types may have them. None exactly where they aren't.
pub(crate) fn read_fit_options(octets: &[u8]) -> Option<Options<'_>>
    ensures { result ≡ fit_options_of octets.now }
{
    let options = read_options(octets)?;
    if are_fit(&options) {
        Some(options)
    } else {
        None
    }
}

/// Puts an option behind others.
pub(crate) fn put_option(options: &mut OptList, kind: u8, body: &[u8])
    requires { length (written options.old) + (OPTION_HEADER + length body.now) ≤ MOST_LIST }
    ensures { options.new ≡ options.old ++ option_with kind body.now ∷ [] }
{
    options.push(kind, body).unwrap();
}
