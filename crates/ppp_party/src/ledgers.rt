//! What is counted of the Configure-Requests of all protocols on a link.

ghost use Rattle.std.specs.Prelude.{◌≡◌, ◌+◌, ◌^◌, ◌<◌, IfOk, OnOk, Some, option_map};
ghost use Rattle.ppp_auto.specs.Packet as plain;
ghost use Rattle.ppp_duet.specs.Duet.{mark_of};
ghost use Rattle.ppp_party.specs.About.{kind_of};
ghost use Rattle.ppp_party.specs.CarriedRead.{carried_seen};
ghost use Rattle.ppp_party.specs.Counted.{IsCounted};
ghost use Rattle.ppp_party.specs.Frame.{mark_by, noted_by};
ghost use Rattle.ppp_party.specs.Heard.{heard_in, hears, ledgers_with, state_at};
ghost use Rattle.ppp_party.specs.Ledger.{ledger_at, ledger_begun, ledgers_begun, noted};
ghost use Rattle.ppp_party.specs.PacketRead.{packet_seen};
ghost use Rattle.ppp_party.specs.Party.{unheard};

use crate::about::PacketKind;
use crate::carried::Carried;
use crate::ledger::Ledger;
use crate::packet::Packet;
use crate::states::States;
use ppp_memory::Memory;
use ppp_packet::Proto;
use std::alloc::Global;
use std::marker::Model;

/// The ledgers of a link's protocols, one for each.
#[derive(Drop)]
pub(crate) struct Ledgers {
    lcp: Ledger,
    ip: Ledger,
    ipv6: Ledger,
    osi: Ledger,
    mpls: Ledger,
    bacp: Ledger,
}

impl Model for Ledgers {
    ghost use Rattle.std.specs.Prelude.{⊤};
    ghost use Rattle.ppp_party.specs.Ledger as spec;

    ghost Value = { spec.Ledgers };

    ghost view = { λ g. record { lcp = g.lcp; ip = g.ip; ipv6 = g.ipv6; osi = g.osi; mpls = g.mpls; bacp = g.bacp } };

    ghost invariant = { λ g. ⊤ };
}

impl Ledgers {
    /// Nothing was sent yet.
    pub(crate) fn new(alloc: Global) -> Ledgers
        ensures { result ≡ ledgers_begun }
    {
        Ledgers {
            lcp: Ledger::new(alloc),
            ip: Ledger::new(alloc),
            ipv6: Ledger::new(alloc),
            osi: Ledger::new(alloc),
            mpls: Ledger::new(alloc),
            bacp: Ledger::new(alloc),
        }
    }

    /// The ordinal of the last Configure-Request of a protocol that was sent, 0 before the first.
    pub(crate) fn sent(&self, proto: Proto) -> u64
        ensures { result ≡ (ledger_at self.now proto).n }
    {
        match proto {
            Proto::Lcp => self.lcp.sent(),
            Proto::Ip => self.ip.sent(),
            Proto::Ipv6 => self.ipv6.sent(),
            Proto::Osi => self.osi.sent(),
            Proto::Mpls => self.mpls.sent(),
            Proto::Bacp => self.bacp.sent(),
        }
    }

    /// Notes what a frame carries that is sent in answer to one of that mark, and answers the frame's mark.
    pub(crate) fn post(&mut self, mark: u64, carried: &Option<Carried<'_>>) -> Result<u64, Memory>
        requires { IsCounted (2 ^ 63) self.old }
        ensures noted { OnOk result (self.new ≡ noted_by self.old (option_map carried_seen carried.now)) }
        ensures mark { IfOk result (λ m. m ≡ mark_by self.old mark (option_map carried_seen carried.now)) }
    {
        let Some(carried) = carried else {
            return Ok(mark);
        };
        self.note(carried.proto, &carried.packet)?;
        Ok(mark_for(
            PacketKind::of(&carried.packet),
            self.sent(carried.proto),
            mark,
        ))
    }

    /// Notes a packet of a protocol that is sent.
    fn note(&mut self, proto: Proto, packet: &Packet<'_>) -> Result<(), Memory>
        requires { (ledger_at self.old proto).n + 256 < 2 ^ 64 }
        ensures { OnOk result (self.new
            ≡ ledgers_with self.old proto (noted (ledger_at self.old proto) (packet_seen packet.now))) }
    {
        match proto {
            Proto::Lcp => self.lcp.note(packet),
            Proto::Ip => self.ip.note(packet),
            Proto::Ipv6 => self.ipv6.note(packet),
            Proto::Osi => self.osi.note(packet),
            Proto::Mpls => self.mpls.note(packet),
            Proto::Bacp => self.bacp.note(packet),
        }
    }

    /// Notes what a link lends of a frame of that mark, whose automata were in those states before.
    pub(crate) fn hear(&mut self, states: &States, mark: u64, lent: &Option<Carried<'_>>)
        ensures { self.new ≡ hears self.old states.now mark (option_map carried_seen lent.now) }
    {
        let Some(carried) = lent else {
            return;
        };
        if states.lets_in(carried.proto) {
            self.hear_packet(states, carried.proto, mark, &carried.packet);
        }
    }

    /// Notes a packet of a protocol that is taken in.
    fn hear_packet(&mut self, states: &States, proto: Proto, mark: u64, packet: &Packet<'_>)
        ensures { self.new ≡ ledgers_with self.old proto
            (heard_in (ledger_at self.old proto) (state_at states.now proto) mark (packet_seen packet.now)) }
    {
        let Some(state) = states.at(proto) else {
            return;
        };
        match proto {
            Proto::Lcp => self.lcp.hear(state, mark, packet),
            Proto::Ip => self.ip.hear(state, mark, packet),
            Proto::Ipv6 => self.ipv6.hear(state, mark, packet),
            Proto::Osi => self.osi.hear(state, mark, packet),
            Proto::Mpls => self.mpls.hear(state, mark, packet),
            Proto::Bacp => self.bacp.hear(state, mark, packet),
        }
    }

    /// What was heard of the peer counts no longer.
    pub(crate) fn forget(&mut self)
        ensures { self.new ≡ unheard self.old }
    {
        self.lcp.forget();
        self.ip.forget();
        self.ipv6.forget();
        self.osi.forget();
        self.mpls.forget();
        self.bacp.forget();
    }

    /// Is as at the beginning.
    pub(crate) fn begin(&mut self)
        ensures { self.new ≡ ledgers_begun }
    {
        self.lcp.begin();
        self.ip.begin();
        self.ipv6.begin();
        self.osi.begin();
        self.mpls.begin();
        self.bacp.begin();
    }
}

/// The mark of a packet of that kind: the ordinal of a Configure-Request, the mark of what an answer answers.
fn mark_for(kind: PacketKind, sent: u64, mark: u64) -> u64
    ensures { (p : plain.Packet) → kind_of p ≡ kind → result ≡ mark_of sent mark p }
{
    match kind {
        PacketKind::Request => sent,
        PacketKind::Answer => mark,
        PacketKind::Other => 0,
    }
}
