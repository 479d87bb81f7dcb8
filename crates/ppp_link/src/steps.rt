//! What a link does, step by step (RFC 1661 section 3).

ghost use Rattle.std.specs.Prelude.{◌≡◌, ◌+◌, ◌-◌, ◌*◌, ◌≤◌, ◌<◌, ◌++◌, ◌∷◌, [], length, take, Some, if◌then◌else◌};
ghost use Rattle.arrayvec.specs.ArrayVec.{array_vec_len};
ghost use Rattle.ppp_packet.specs.Packet.{two_octets};
ghost use Rattle.ppp_packet.specs.Proto.{proto_of};
ghost use Rattle.ppp_auto.specs.Outbox.{entry_seen, IsShort};
ghost use Rattle.ppp_auto.specs.declared.auto.TheConstants.{LEAST_CAP, MOST_CAP};
ghost use Rattle.ppp_link.specs.Proto.{control_of};
ghost use Rattle.ppp_link.specs.Steps.{does, does_rejected, each_does, given_seen, hears, hears_inner, hears_other, is_bap, is_outside, is_payload, reject_packet, rejected_if, rejected_in, rejects, run_by, runs, so_far, takes, there, told_all, told_by, told_one, Event, Packet};
ghost use Rattle.ppp_link.specs.declared.link_out.TheConstants.{MOST_OCTETS, SLOTS};
ghost use Rattle.ppp_link.specs.declared.steps.TheConstants.{MOST_ADDED, MOST_DATA, NETS, REJECT_HEADER};

use crate::automata::Automata;
use crate::given::Given;
use crate::link_out::LinkOut;
use arrayvec::ArrayVec;
use ppp_auto::{AutoEvent, EntryRef, LayerSignal, MOST_CAP, Outbox};
use ppp_frame::{Form, FrameRef};
use ppp_packet::{Code, Proto, write_packet};

/// The protocol of multilink's fragments (RFC 1990 section 3).
pub(crate) const MULTILINK: u16 = 0x003d;

/// The protocol of BAP's packets (RFC 2125).
const BAP: u16 = 0xc02d;

/// The octets of a Protocol-Reject before the information (RFC 1661 section 5.7).
pub(crate) const REJECT_HEADER: usize = 6;

/// The most octets of a Protocol-Reject behind Code, Identifier and Length.
const MOST_DATA: usize = 1496;

/// The network control protocols, in order.
const NETS: [Proto; 4] = [Proto::Ip, Proto::Ipv6, Proto::Osi, Proto::Mpls];

/// The most entries that one event or packet of an automaton adds.
pub(crate) const MOST_ADDED: usize = 4;

impl Automata {
    /// Something happens to the automaton of a protocol.
    #[tactic(auto, unfolding(crate::specs::Steps::does))]
    pub(crate) fn step(
        &mut self,
        proto: Proto,
        given: Given<'_>,
        word: u64,
        outbox: &mut Outbox,
        out: &mut LinkOut,
    )
        requires room { length out.old + MOST_ADDED ≤ SLOTS }
        ensures tables { self.new.0 ≡ self.old.0 }
        ensures did { so_far self.new.1 out.new
            ≡ does self.old.0 proto (given_seen given.entry) word (so_far self.old.1 out.old) }
        ensures told { outbox.new ≡ told_by self.old.0 proto (given_seen given.entry) word self.old.1 }
        ensures few { length out.new ≤ length out.old + MOST_ADDED }
    {
        self.act(proto, given, word, outbox);
        if proto == Proto::Lcp {
            let cap = self.cap();
            self.set_caps(cap);
        }
        tell_all(self.form(proto), proto, outbox, out);
    }

    /// The network control protocols that are configured go Up or Down, and behind them BACP where that is asked for.
    #[tactic(auto, unfolding(crate::specs::Steps::each_does))]
    pub(crate) fn run(
        &mut self,
        on: bool,
        bacp: bool,
        word: u64,
        outbox: &mut Outbox,
        out: &mut LinkOut,
    )
        requires { length out.old + 5 * MOST_ADDED ≤ SLOTS }
        ensures tables { self.new.0 ≡ self.old.0 }
        ensures did { so_far self.new.1 out.new
            ≡ each_does self.old.0 (runs bacp) (run_by on) word (so_far self.old.1 out.old) }
        ensures few { length out.new ≤ length out.old + 5 * MOST_ADDED }
    {
        let event = if on { AutoEvent::Up } else { AutoEvent::Down };
        self.each(&NETS, event, word, outbox, out);
        if bacp {
            self.step(Proto::Bacp, Given::Event(event), word, outbox, out);
        }
    }

    /// An event happens to the automata of several protocols in turn.
    #[tactic(auto, unfolding(crate::specs::Steps::each_does))]
    fn each(
        &mut self,
        protos: &[Proto],
        event: AutoEvent,
        word: u64,
        outbox: &mut Outbox,
        out: &mut LinkOut,
    )
        requires { length out.old + length protos.now * MOST_ADDED ≤ SLOTS }
        ensures tables { self.new.0 ≡ self.old.0 }
        ensures did { so_far self.new.1 out.new
            ≡ each_does self.old.0 protos.now event word (so_far self.old.1 out.old) }
        ensures few { length out.new ≤ length out.old + length protos.now * MOST_ADDED }
    {
        for i in 0..protos.len() {
            self.step(protos[i], Given::Event(event), word, outbox, out);
        }
    }

    /// Octets come for the automaton of a protocol.
    #[tactic(auto, unfolding(crate::specs::Steps::takes))]
    pub(crate) fn take(
        &mut self,
        proto: Proto,
        octets: &[u8],
        word: u64,
        outbox: &mut Outbox,
        out: &mut LinkOut,
    )
        requires { length out.old + 2 * MOST_ADDED ≤ SLOTS }
        ensures tables { self.new.0 ≡ self.old.0 }
        ensures did { so_far self.new.1 out.new
            ≡ takes self.old.0 proto octets.now word (so_far self.old.1 out.old) }
        ensures few { length out.new ≤ length out.old + 2 * MOST_ADDED }
    {
        self.step(proto, Given::Packet(octets), word, outbox, out);
        self.bear_rejected(rejected_in(outbox), word, outbox, out);
    }

    /// The peer rejects a protocol, if it rejects one.
    #[tactic(auto, unfolding(crate::specs::Steps::rejected_if))]
    fn bear_rejected(
        &mut self,
        rejected: Option<u16>,
        word: u64,
        outbox: &mut Outbox,
        out: &mut LinkOut,
    )
        requires { length out.old + MOST_ADDED ≤ SLOTS }
        ensures tables { self.new.0 ≡ self.old.0 }
        ensures did { so_far self.new.1 out.new
            ≡ rejected_if self.old.0 rejected word (so_far self.old.1 out.old) }
        ensures few { length out.new ≤ length out.old + MOST_ADDED }
    {
        let Some(number) = rejected else {
            return;
        };
        match self.configured(number) {
            Some(proto) => {
                self.step(
                    proto,
                    Given::Event(AutoEvent::RejectedBadly),
                    word,
                    outbox,
                    out,
                );
            }
            None => {
                self.step(
                    Proto::Lcp,
                    Given::Event(AutoEvent::RejectedWell),
                    word,
                    outbox,
                    out,
                );
            }
        }
    }

    /// A frame is taken: one of LCP always, any other while LCP is Opened.
    #[tactic(auto, unfolding(crate::specs::Steps::hears))]
    pub(crate) fn hear(
        &mut self,
        frame: FrameRef<'_>,
        word: u64,
        outbox: &mut Outbox,
        out: &mut LinkOut,
    )
        requires room { length out.old + 2 * MOST_ADDED ≤ SLOTS }
        requires size { length frame.info.now ≤ MOST_OCTETS }
        ensures tables { self.new.0 ≡ self.old.0 }
        ensures did { so_far self.new.1 out.new
            ≡ hears self.old.0 frame.entry.protocol frame.entry.info.now word (so_far self.old.1 out.old) }
        ensures few { length out.new ≤ length out.old + 2 * MOST_ADDED }
    {
        if frame.protocol != Proto::Lcp.number() && !self.is_opened() {
            return;
        }
        match self.configured(frame.protocol) {
            Some(proto) => self.take(proto, frame.info, word, outbox, out),
            None => self.hear_other(frame, out),
        }
    }

    /// A packet is taken that came inside multilink, while LCP is Opened: none of LCP, multilink or BAP.
    #[tactic(auto, unfolding(crate::specs::Steps::hears_inner))]
    pub(crate) fn hear_inner(
        &mut self,
        packet: FrameRef<'_>,
        word: u64,
        outbox: &mut Outbox,
        out: &mut LinkOut,
    )
        requires room { length out.old + 2 * MOST_ADDED ≤ SLOTS }
        requires size { length packet.info.now ≤ MOST_OCTETS }
        ensures tables { self.new.0 ≡ self.old.0 }
        ensures did { so_far self.new.1 out.new
            ≡ hears_inner self.old.0 packet.entry.protocol packet.entry.info.now word (so_far self.old.1 out.old) }
        ensures few { length out.new ≤ length out.old + 2 * MOST_ADDED }
    {
        if self.is_outside(packet.protocol) || !self.is_opened() {
            return;
        }
        match self.configured(packet.protocol) {
            Some(proto) => self.take(proto, packet.info, word, outbox, out),
            None => self.hear_other(packet, out),
        }
    }

    /// A frame is taken that is no automaton's: it is handed up, or its protocol is rejected.
    #[tactic(auto, unfolding(crate::specs::Steps::hears_other))]
    fn hear_other(&mut self, frame: FrameRef<'_>, out: &mut LinkOut)
        requires room { length out.old < SLOTS }
        requires size { length frame.info.now ≤ MOST_OCTETS }
        ensures tables { self.new.0 ≡ self.old.0 }
        ensures did { so_far self.new.1 out.new
            ≡ hears_other self.old.0 frame.entry.protocol frame.entry.info.now (so_far self.old.1 out.old) }
        ensures few { length out.new ≤ length out.old + 1 }
    {
        if self.is_payload(frame.protocol) {
            out.hand_up(frame.protocol, frame.info);
        } else {
            self.reject(frame.protocol, frame.info, out);
        }
    }

    /// Rejects a protocol (RFC 1661 section 5.7).
    #[tactic(auto, unfolding(crate::specs::Steps::rejects))]
    fn reject(&mut self, protocol: u16, info: &[u8], out: &mut LinkOut)
        requires { length out.old < SLOTS }
        ensures tables { self.new.0 ≡ self.old.0 }
        ensures did { so_far self.new.1 out.new
            ≡ rejects protocol info.now (so_far self.old.1 out.old) }
        ensures few { length out.new ≤ length out.old + 1 }
    {
        let mut packet = [0; MOST_CAP as usize];
        let cap = usize::from(self.cap());
        let size = write_reject(&mut packet, self.draw_reject_id(), cap, protocol, info);
        out.push(self.form(Proto::Lcp), Proto::Lcp, &packet[..size]);
    }

    /// The configured control protocol of that number.
    fn configured(&self, number: u16) -> Option<Proto>
        ensures { result ≡ there self.now.1 (proto_of number) }
    {
        match Proto::try_from(number) {
            Ok(proto) => self.if_configured(proto),
            Err(_) => None,
        }
    }

    fn if_configured(&self, proto: Proto) -> Option<Proto>
        ensures { result ≡ there self.now.1 (Some proto) }
    {
        if self.state(proto).is_some() {
            Some(proto)
        } else {
            None
        }
    }

    /// Whether what a frame of that protocol carries is handed up.
    fn is_payload(&self, number: u16) -> bool
        ensures { result ≡ is_payload self.now.0 self.now.1 number }
    {
        let belongs = match control_of(number) {
            Some(proto) => self.state(proto).is_some(),
            None => false,
        };
        belongs || (number == MULTILINK && self.is_multilink()) || self.is_bap(number)
    }

    /// Whether a frame of that protocol is one of BAP, which is known where BACP is configured.
    fn is_bap(&self, number: u16) -> bool
        ensures { result ≡ is_bap self.now.1 number }
    {
        number == BAP && self.state(Proto::Bacp).is_some()
    }

    /// Whether packets of that protocol aren't taken inside multilink.
    fn is_outside(&self, number: u16) -> bool
        ensures { result ≡ is_outside self.now.1 number }
    {
        number == Proto::Lcp.number() || number == MULTILINK || self.is_bap(number)
    }
}

/// The control protocol that a protocol of data belongs to.
fn control_of(number: u16) -> Option<Proto>
    ensures { result ≡ control_of number }
{
    match number {
        0x0021 => Some(Proto::Ip),
        0x0057 => Some(Proto::Ipv6),
        0x0023 => Some(Proto::Osi),
        0x0281 | 0x0283 => Some(Proto::Mpls),
        _ => None,
    }
}

/// Puts what an automaton sends and tells at the end of a list.
fn tell_all(form: Form, proto: Proto, outbox: &Outbox, out: &mut LinkOut)
    requires { length out.old + MOST_ADDED ≤ SLOTS }
    ensures out { out.new ≡ out.old ++ told_all form proto outbox.now }
    ensures few { length out.new ≤ length out.old + MOST_ADDED }
{
    for i in 0..outbox.count() {
        tell_entry(form, proto, outbox.at(i), out);
    }
}

/// Puts an entry of an automaton at the end of a list.
fn tell_entry(form: Form, proto: Proto, entry: EntryRef<'_>, out: &mut LinkOut)
    requires few { length out.old < SLOTS }
    requires short { IsShort (entry_seen entry) }
    ensures out { out.new ≡ out.old ++ told_one form proto (entry_seen entry.entry) }
    ensures few { length out.new ≤ length out.old + 1 }
{
    match entry {
        EntryRef::Send(octets) => out.push(form, proto, octets),
        EntryRef::Signal(signal) => out.tell(proto, signal),
    }
}

/// The protocol that a Protocol-Reject among the entries names.
fn rejected_in(outbox: &Outbox) -> Option<u16>
    ensures { result ≡ rejected_in outbox.now }
{
    for i in 0..outbox.count() {
        if let Some(number) = rejected_by(outbox.at(i)) {
            return Some(number);
        }
    }
    None
}

/// The protocol that an entry names, if it is a Protocol-Reject.
fn rejected_by(entry: EntryRef<'_>) -> Option<u16>
    ensures { result ≡ rejected_in (entry_seen entry.entry ∷ []) }
{
    match entry {
        EntryRef::Signal(LayerSignal::ProtocolRejected(number)) => Some(number),
        _ => None,
    }
}

/// Writes a Protocol-Reject of at most `cap` octets, and answers how many it has.
fn write_reject(packet: &mut [u8], id: u8, cap: usize, protocol: u16, info: &[u8]) -> usize
    requires low { LEAST_CAP ≤ cap }
    requires high { cap ≤ MOST_CAP }
    requires room { length packet.old ≡ MOST_CAP }
    ensures octets { take result packet.new ≡ reject_packet id cap protocol info.now }
    ensures room { length packet.new ≡ MOST_CAP }
    ensures size { result ≤ MOST_CAP }
{
    let data = reject_data(cap, protocol, info);
    write_packet(packet, Code::ProtocolReject.number(), id, data.as_slice())
}

/// The protocol, and as much of the information as a Protocol-Reject has room for.
fn reject_data(cap: usize, protocol: u16, info: &[u8]) -> ArrayVec<u8, MOST_DATA>
    requires low { LEAST_CAP ≤ cap }
    requires high { cap ≤ MOST_CAP }
    ensures octets { result.items ≡ two_octets protocol ++ take (cap - REJECT_HEADER) info.now }
    ensures size { array_vec_len result ≤ MOST_DATA }
{
    let mut data = ArrayVec::new();
    data.push((protocol / 256) as u8);
    data.push((protocol % 256) as u8);
    data.try_extend_from_slice(front(info, cap - REJECT_HEADER))
        .unwrap();
    data
}

/// As many octets from the front as there is room for.
fn front(octets: &[u8], room: usize) -> &[u8]
    ensures octets { result.now ≡ take room octets.now }
    ensures size { length result.now ≤ room }
{
    if octets.len() <= room {
        octets
    } else {
        &octets[..room]
    }
}
