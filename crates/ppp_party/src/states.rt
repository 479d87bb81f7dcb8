//! The states of a link's automata.

ghost use Rattle.std.specs.Prelude.{◌≡◌};
ghost use Rattle.ppp_party.specs.Heard.{is_let_in, state_at, states_of};

use ppp_auto::AutoState;
use ppp_link::Link;
use ppp_packet::Proto;

/// The states of a link's automata: None where a protocol isn't configured.
#[derive(Clone, Copy)]
pub(crate) struct States {
    pub(crate) lcp: Option<AutoState>,
    pub(crate) ip: Option<AutoState>,
    pub(crate) ipv6: Option<AutoState>,
    pub(crate) osi: Option<AutoState>,
    pub(crate) mpls: Option<AutoState>,
    pub(crate) bacp: Option<AutoState>,
}

impl States {
    /// Those of a link.
    pub(crate) fn of(link: &Link) -> States
        ensures { result ≡ states_of link.now.automata }
    {
        States {
            lcp: link.state(Proto::Lcp),
            ip: link.state(Proto::Ip),
            ipv6: link.state(Proto::Ipv6),
            osi: link.state(Proto::Osi),
            mpls: link.state(Proto::Mpls),
            bacp: link.state(Proto::Bacp),
        }
    }

    /// The state of a protocol.
    pub(crate) fn at(&self, proto: Proto) -> Option<AutoState>
        ensures { result ≡ state_at self.now proto }
    {
        match proto {
            Proto::Lcp => self.lcp,
            Proto::Ip => self.ip,
            Proto::Ipv6 => self.ipv6,
            Proto::Osi => self.osi,
            Proto::Mpls => self.mpls,
            Proto::Bacp => self.bacp,
        }
    }

    /// Whether a frame of the protocol is let in: one of LCP always, any other while LCP is Opened.
    pub(crate) fn lets_in(&self, proto: Proto) -> bool
        ensures { result ≡ is_let_in self.now proto }
    {
        match proto {
            Proto::Lcp => true,
            _ => matches!(self.lcp, Some(AutoState::Opened)),
        }
    }
}
