//! Frames under way.

ghost use Rattle.std.specs.Prelude.{◌≡◌, IfOk};
ghost use Rattle.std.specs.Option.{option_to_list};
ghost use Rattle.ppp_duet.specs.Span.{answers, requests};
ghost use Rattle.ppp_party.specs.About.{about_of};
ghost use Rattle.ppp_party.specs.BapSpans.{bap_answer, bap_kind, bap_request};
ghost use Rattle.ppp_party.specs.Frame.{carried, seen};

use crate::about::{About, PacketKind};
use ppp_memory::Memory;
use ppp_packet::Proto;
use std::alloc::Global;
use std::marker::Model;

/// A frame under way: its octets, flags and all, and its mark, which is of a request its ordinal, and of an answer that of what
/// it answers. What it carries is kept beside, so that no octet is read twice. It is seen as mark and octets.
#[derive(Drop)]
pub(crate) struct Frame {
    mark: u64,
    about: Option<About>,
    bap: Option<PacketKind>,
    octets: Vec<u8>,
}

impl Model for Frame {
    ghost use Rattle.std.specs.Prelude.{◌≡◌};
    ghost use Rattle.ppp_party.specs.About.{about_of};
    ghost use Rattle.ppp_party.specs.Frame.{carried};
    ghost use Rattle.ppp_party.specs.Frame as spec;

    ghost Value = { spec.Frame };

    ghost view = { λ f. record { mark = f.mark; octets = f.octets.items } };

    ghost use Rattle.ppp_party.specs.BapSpans.{bap_kind};

    ghost invariant = { λ f. (f.about ≡ about_of (carried f.octets.items)) × (f.bap ≡ bap_kind f.octets.items) };
}

impl Frame {
    /// A frame with that mark and these octets, which carries that.
    pub(crate) fn new(
        alloc: Global,
        mark: u64,
        about: Option<About>,
        bap: Option<PacketKind>,
        octets: &[u8],
    ) -> Result<Frame, Memory>
        requires about { about ≡ about_of (carried octets.now) }
        requires bap { bap ≡ bap_kind octets.now }
        ensures { IfOk result (λ f. f ≡ record { mark = mark; octets = octets.now }) }
    {
        match Vec::from_slice(alloc, octets) {
            Ok(octets) => Ok(Frame {
                mark,
                about,
                bap,
                octets,
            }),
            Err(_) => Err(Memory),
        }
    }

    /// Its mark.
    pub(crate) fn mark(&self) -> u64
        ensures { result ≡ self.now.mark }
    {
        self.mark
    }

    /// Its octets.
    pub(crate) fn octets(&self) -> &[u8]
        ensures { result.now ≡ self.now.octets }
    {
        self.octets.as_slice()
    }

    /// Its mark, if it is a Configure-Request of that protocol.
    pub(crate) fn request_mark(&self, proto: Proto) -> Option<u64>
        ensures { option_to_list result ≡ requests (seen proto self.now) }
    {
        match self.about {
            Some(about) if about.is_request_of(proto) => Some(self.mark),
            _ => None,
        }
    }

    /// Its mark, if it answers a Configure-Request of that protocol.
    pub(crate) fn answer_mark(&self, proto: Proto) -> Option<u64>
        ensures { option_to_list result ≡ answers (seen proto self.now) }
    {
        match self.about {
            Some(about) if about.is_answer_of(proto) => Some(self.mark),
            _ => None,
        }
    }

    /// Its mark, if it is a request of BAP.
    pub(crate) fn bap_request_mark(&self) -> Option<u64>
        ensures { option_to_list result ≡ bap_request self.now }
    {
        match self.bap {
            Some(PacketKind::Request) => Some(self.mark),
            _ => None,
        }
    }

    /// Its mark, if it answers a request of BAP.
    pub(crate) fn bap_answer_mark(&self) -> Option<u64>
        ensures { option_to_list result ≡ bap_answer self.now }
    {
        match self.bap {
            Some(PacketKind::Answer) => Some(self.mark),
            _ => None,
        }
    }
}
