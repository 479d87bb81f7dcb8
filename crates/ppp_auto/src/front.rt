//! The octets of options, as many from the front as fit a packet.

ghost use Rattle.std.specs.Prelude.{◌≡◌, ◌+◌, ◌≤◌, ◌==◌, [], ◌++◌, length};
ghost use Rattle.ppp_packet.specs.declared.options.TheConstants.{MOST_BODY, OPTION_HEADER};
ghost use Rattle.ppp_packet.specs.Options.{option_octets, option_with};
ghost use Rattle.ppp_auto.specs.Front.{IsFront, PutsBehind};
ghost use Rattle.ppp_auto.specs.declared.outbox.TheConstants.{MOST_REST};

use crate::outbox::MOST_REST;
use arrayvec::ArrayVec;
use ppp_packet::OPTION_HEADER;

/// The octets of options that were put in, as many from the front as fit a packet.
#[derive(Drop)]
pub(crate) struct Front {
    octets: ArrayVec<u8, MOST_REST>,
    /// Whether one of them didn't fit.
    full: bool,
}

impl Front {
    /// No option.
    pub(crate) fn new() -> Front
        ensures { IsFront [] result }
    {
        Front {
            octets: ArrayVec::new(),
            full: false,
        }
    }

    /// Takes all options out.
    pub(crate) fn clear(&mut self)
        ensures { IsFront [] self.new }
    {
        self.octets.clear();
        self.full = false;
    }

    /// Puts an option at the end.
    pub(crate) fn put(&mut self, kind: u8, body: &[u8])
        requires { length body.now ≤ MOST_BODY }
        ensures { PutsBehind self.old self.new (option_with kind body.now) }
    {
        if self.full {
            return;
        }
        if MOST_REST < self.octets.len() + OPTION_HEADER + body.len() {
            self.full = true;
            return;
        }
        put_option(&mut self.octets, kind, body);
    }

    /// Whether there are no octets.
    pub(crate) fn is_empty(&self) -> bool
        ensures { result ≡ (length self.now.octets.items == 0) }
    {
        self.octets.is_empty()
    }

    /// The octets.
    pub(crate) fn octets(&self) -> &[u8]
        ensures value { result.now ≡ self.now.octets.items }
        ensures size { length result.now ≤ MOST_REST }
    {
        self.octets.as_slice()
    }
}

/// Puts the octets of an option behind others.
fn put_option(octets: &mut ArrayVec<u8, MOST_REST>, kind: u8, body: &[u8])
    requires size { length body.now ≤ MOST_BODY }
    requires room { length octets.old.items + OPTION_HEADER + length body.now ≤ MOST_REST }
    ensures { octets.new.items ≡ octets.old.items ++ option_octets (option_with kind body.now) }
{
    octets.push(kind);
    octets.push((OPTION_HEADER + body.len()) as u8);
    octets.try_extend_from_slice(body).unwrap();
}
