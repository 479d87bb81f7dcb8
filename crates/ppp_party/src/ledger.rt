//! What an end's Configure-Requests of a protocol on a link are counted by.

ghost use Rattle.std.specs.Prelude.{◌≡◌, ◌+◌, ◌^◌, ◌<◌, OnOk};
ghost use Rattle.ppp_packet.specs.Options.{list_of, HoldsOptions};
ghost use Rattle.ppp_party.specs.Ledger.{heard, last_of, ledger_begun, noted, noted_request};
ghost use Rattle.ppp_party.specs.PacketRead.{packet_seen};

use crate::packet::Packet;
use ppp_auto::AutoState;
use ppp_memory::Memory;
use ppp_packet::Options;
use std::alloc::Global;
use std::marker::Model;

/// The Identifier of an end's first Configure-Request.
const FIRST_ID: u64 = 1;

/// The ordinal of the last Configure-Request that was sent, the list of it, the ordinal of the peer's last one that was taken
/// in, and the own list when the request was judged that was acknowledged last.
#[derive(Drop)]
pub(crate) struct Ledger {
    sent: u64,
    last: Vec<u8>,
    got: u64,
    against: Vec<u8>,
}

impl Model for Ledger {
    ghost use Rattle.ppp_packet.specs.Options.{HoldsOptions};
    ghost use Rattle.ppp_party.specs.Ledger as spec;

    ghost Value = { spec.Ledger };

    ghost view = { λ g. spec.ledger_with g.sent g.last.items g.got g.against.items };

    ghost invariant = { λ g. HoldsOptions g.last.items × HoldsOptions g.against.items };
}

impl Ledger {
    /// Nothing was sent yet.
    pub(crate) fn new(alloc: Global) -> Ledger
        ensures { result ≡ ledger_begun }
    {
        Ledger {
            sent: 0,
            last: Vec::new(alloc),
            got: 0,
            against: Vec::new(alloc),
        }
    }

    /// The ordinal of the last Configure-Request that was sent, 0 before the first.
    pub(crate) fn sent(&self) -> u64
        ensures { result ≡ self.now.n }
    {
        self.sent
    }

    /// What was heard of the peer counts no longer.
    pub(crate) fn forget(&mut self)
        ensures { self.new ≡ record self.old { got = 0 } }
    {
        self.got = 0;
    }

    /// Is as at the beginning.
    pub(crate) fn begin(&mut self)
        ensures { self.new ≡ ledger_begun }
    {
        self.sent = 0;
        self.last.clear();
        self.got = 0;
        self.against.clear();
    }

    /// Notes a packet of that mark that is taken in, in that state: requests don't count in Initial and Starting.
    pub(crate) fn hear(&mut self, state: AutoState, mark: u64, packet: &Packet<'_>)
        ensures { self.new ≡ heard self.old state mark (packet_seen packet.now) }
    {
        match (packet, state) {
            (Packet::Request(..), AutoState::Initial | AutoState::Starting) => {}
            (Packet::Request(..), _) => self.got = mark,
            _ => {}
        }
    }

    /// Notes a packet that is sent.
    pub(crate) fn note(&mut self, packet: &Packet<'_>) -> Result<(), Memory>
        requires { self.old.n + 256 < 2 ^ 64 }
        ensures { OnOk result (self.new ≡ noted self.old (packet_seen packet.now)) }
    {
        match packet {
            Packet::Request(id, list) => self.note_request(*id, list),
            Packet::Ack(..) => keep(&mut self.against, self.last.as_slice()),
            Packet::Nak(..) | Packet::Reject(..) | Packet::Other(..) => Ok(()),
        }
    }

    /// Notes a Configure-Request that is sent. One that repeats the last draws no ordinal.
    fn note_request(&mut self, id: u8, list: &Options<'_>) -> Result<(), Memory>
        requires { self.old.n + 256 < 2 ^ 64 }
        ensures { OnOk result (self.new ≡ noted_request self.old id list.now) }
    {
        if id == last_id(self.sent) {
            return Ok(());
        }
        self.sent += 1;
        keep(&mut self.last, list.octets())
    }
}

/// The Identifier of the Configure-Request of that ordinal.
fn last_id(sent: u64) -> u8
    requires { sent + 256 < 2 ^ 64 }
    ensures { result ≡ last_of sent }
{
    ((FIRST_ID + sent + 255) % 256) as u8
}

/// Keeps the octets of a list in the place of another's.
fn keep(kept: &mut Vec<u8>, list: &[u8]) -> Result<(), Memory>
    requires { HoldsOptions list.now }
    ensures value { OnOk result (list_of kept.new.items ≡ list_of list.now) }
    ensures held { HoldsOptions kept.new.items }
{
    kept.clear();
    kept.extend_from_slice(list).map_err(|_| Memory)
}
