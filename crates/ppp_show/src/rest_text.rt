//! What stands behind a packet's header.

ghost use Rattle.std.specs.Prelude.{◌≡◌, Some};
ghost use Rattle.ppp_packet.specs.OptRef.{option_seen};
ghost use Rattle.ppp_show.specs.RestText.{data_text, has_options, option_text, options_text, rest_text};

use ppp_packet::{Code, OptRef, read_options};
use ppp_text::HexText;
use std::fmt;

/// The octets behind a packet's header. They print as options, where the packet has options, or else as data.
#[derive(Clone, Copy)]
pub(crate) struct RestText<'a> {
    pub(crate) code: Option<Code>,
    pub(crate) octets: &'a [u8],
}

impl fmt::Display for RestText<'_> {
    ghost output = { λ rest. Some (rest_text rest.code rest.octets.now) };

    fn fmt<W: fmt::Write>(&self, f: &mut fmt::Formatter<W>) -> fmt::Result {
        let octets = self.octets;
        if has_options(self.code) {
            let options = OptionsText { octets };
            return write!(f, "{options}");
        }
        let data = DataText { octets };
        write!(f, "{data}")
    }
}

/// Whether packets of this code have options (RFC 1661 sections 5.1 to 5.4).
fn has_options(code: Option<Code>) -> bool
    ensures { result ≡ has_options code }
{
    matches!(
        code,
        Some(
            Code::ConfigureRequest | Code::ConfigureAck | Code::ConfigureNak | Code::ConfigureReject
        )
    )
}

/// Octets that are options. Each prints as ` KIND=BODY`; where they are none, nothing is printed.
#[derive(Clone, Copy)]
struct OptionsText<'a> {
    octets: &'a [u8],
}

impl fmt::Display for OptionsText<'_> {
    ghost output = { λ text. Some (options_text text.octets.now) };

    fn fmt<W: fmt::Write>(&self, f: &mut fmt::Formatter<W>) -> fmt::Result {
        let Some(mut left) = read_options(self.octets) else {
            return Ok(());
        };
        'options: while let Some((option, behind)) = left.split_first() {
            let text = OptionText { option };
            write!(f, "{text}")?;
            left = behind;
        }
        Ok(())
    }
}

/// An option. It prints as ` KIND=BODY`, with the kind in decimal and the body in hexadecimal digits.
#[derive(Clone, Copy)]
struct OptionText<'a> {
    option: OptRef<'a>,
}

impl fmt::Display for OptionText<'_> {
    ghost output = { λ text. Some (option_text (option_seen text.option)) };

    fn fmt<W: fmt::Write>(&self, f: &mut fmt::Formatter<W>) -> fmt::Result {
        let kind = self.option.kind;
        let body = HexText {
            octets: self.option.body,
        };
        write!(f, " {kind}={body}")
    }
}

/// Data. They print as ` data HEX`, and as nothing where there are none.
#[derive(Clone, Copy)]
struct DataText<'a> {
    octets: &'a [u8],
}

impl fmt::Display for DataText<'_> {
    ghost output = { λ text. Some (data_text text.octets.now) };

    fn fmt<W: fmt::Write>(&self, f: &mut fmt::Formatter<W>) -> fmt::Result {
        if self.octets.is_empty() {
            return Ok(());
        }
        let octets = HexText {
            octets: self.octets,
        };
        write!(f, " data {octets}")
    }
}
