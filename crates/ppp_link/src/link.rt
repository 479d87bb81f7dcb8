//! A link.

ghost use Rattle.std.specs.Prelude.{◌≡◌, ◌<◌, ◌≤◌, [], ◌∷◌, not, IfOk, option_map, length};
ghost use Rattle.std.specs.Option.{option_and_then};
ghost use Rattle.ppp_auto.specs.Auto.{is_off, mine_of, peer_of};
ghost use Rattle.ppp_auto.specs.declared.auto_event.AutoEvent.TheVariants.{AdminClose, AdminOpen, Down, Timeout, Up};
ghost use Rattle.ppp_auto.specs.declared.outbox.TheConstants.{MOST_OCTETS as MOST_PACKET};
ghost use Rattle.ppp_conf.specs.EndConfig.{end_seen};
ghost use Rattle.ppp_frame.specs.Frame.{enc};
ghost use Rattle.ppp_packet.specs.declared.proto.Proto.TheVariants.{Lcp};
ghost use Rattle.ppp_link.specs.Automata.{auto_at, form_of, is_timed_at};
ghost use Rattle.ppp_link.specs.Link.{cleared, event_did, fed_with, inner_did, link_begun, link_up, link_with, run_did};
ghost use Rattle.ppp_link.specs.LinkOut.{Push};
ghost use Rattle.ppp_link.specs.LinkSettings.{settings_of};
ghost use Rattle.ppp_link.specs.LinkTables.{tables_seen};
ghost use Rattle.ppp_link.specs.declared.link.TheConstants.{MOST_AFTER_EVENT, MOST_AFTER_FRAME, MOST_AFTER_RUN, MOST_FRAME, MOST_INNER};

use crate::automata::Automata;
use crate::given::Given;
use crate::link_out::LinkOut;
use ppp_auto::{AutoEvent, AutoState, Outbox};
use ppp_conf::EndConfig;
use ppp_frame::{Deframer, FLAG, FrameRef};
use ppp_memory::Memory;
use ppp_packet::{OptList, Proto};
use std::alloc::Global;
use std::marker::Model;

/// The most octets of a frame that is read, escapes undone, with header and check sequence.
pub const MOST_FRAME: usize = 8200;

/// The most entries that an event of one protocol makes.
pub const MOST_AFTER_EVENT: usize = 4;

/// The most that a frame makes: what comes for an automaton, and the protocol that it may reject.
pub const MOST_AFTER_FRAME: usize = 8;

/// The most octets of a packet that comes inside multilink, without its protocol.
pub const MOST_INNER: usize = 8193;

/// The most that the control protocols make that go Up or Down together.
pub const MOST_AFTER_RUN: usize = 20;

/// One link of an end. It is seen as the tables of its protocols, which stay, their automata, and its deframer.
#[derive(Drop)]
pub struct Link {
    automata: Automata,
    deframer: Deframer,
    outbox: Outbox,
}

impl Model for Link {
    ghost use Rattle.std.specs.Prelude.{◌≡◌};
    ghost use Rattle.ppp_link.specs.Link as spec;
    ghost use Rattle.ppp_link.specs.declared.link.TheConstants.{MOST_FRAME};

    ghost Value = { spec.Link };

    ghost view = { λ k. record { tables = k.automata.0; automata = k.automata.1; deframer = k.deframer } };

    ghost invariant = { λ k. k.deframer.reader.limit ≡ MOST_FRAME };
}

impl Link {
    /// Link `number`, 1 to 16, of an end of these settings. Every automaton is in Initial. It takes the memory for all that
    /// it holds later.
    #[tactic(auto, using(crate::proofs::LinkLemmas::begun_deframer))]
    pub fn new(alloc: Global, config: &EndConfig, number: u8) -> Result<Link, Memory>
        requires least { 1 ≤ number }
        requires most { number ≤ 16 }
        ensures begun { IfOk result (λ k. k ≡ link_begun k.tables) }
        ensures settings { IfOk result (λ k. tables_seen k.tables ≡ settings_of number (end_seen config.now)) }
    {
        Ok(Link {
            automata: Automata::new(config, number),
            deframer: Deframer::new(alloc, MOST_FRAME)?,
            outbox: Outbox::new(alloc)?,
        })
    }

    /// The line comes up (RFC 1661 section 4.3, event Up of LCP). Where LCP was in Initial or Starting, what came of a frame
    /// before is dropped.
    pub fn up(&mut self, word: u64, out: &mut LinkOut)
        ensures link { self.new ≡ link_up self.old word }
        ensures out { out.new ≡ (event_did self.old Lcp Up word).out }
        ensures few { length out.new ≤ MOST_AFTER_EVENT }
    {
        if !self.has_line() {
            clear(&mut self.deframer);
        }
        self.event(Proto::Lcp, AutoEvent::Up, word, out);
    }

    /// The line goes down.
    pub fn down(&mut self, word: u64, out: &mut LinkOut)
        ensures link { self.new ≡ link_with self.old (event_did self.old Lcp Down word) }
        ensures out { out.new ≡ (event_did self.old Lcp Down word).out }
        ensures few { length out.new ≤ MOST_AFTER_EVENT }
    {
        self.event(Proto::Lcp, AutoEvent::Down, word, out);
    }

    /// A protocol is to be opened: nothing happens where it isn't configured.
    pub fn admin_open(&mut self, proto: Proto, word: u64, out: &mut LinkOut)
        ensures link { self.new ≡ link_with self.old (event_did self.old proto AdminOpen word) }
        ensures out { out.new ≡ (event_did self.old proto AdminOpen word).out }
        ensures few { length out.new ≤ MOST_AFTER_EVENT }
    {
        self.event(proto, AutoEvent::AdminOpen, word, out);
    }

    /// A protocol is to be closed: nothing happens where it isn't configured.
    pub fn admin_close(&mut self, proto: Proto, word: u64, out: &mut LinkOut)
        ensures link { self.new ≡ link_with self.old (event_did self.old proto AdminClose word) }
        ensures out { out.new ≡ (event_did self.old proto AdminClose word).out }
        ensures few { length out.new ≤ MOST_AFTER_EVENT }
    {
        self.event(proto, AutoEvent::AdminClose, word, out);
    }

    /// The restart timer of a protocol fires: nothing happens where it isn't on.
    pub fn timeout(&mut self, proto: Proto, word: u64, out: &mut LinkOut)
        ensures link { self.new ≡ link_with self.old (event_did self.old proto Timeout word) }
        ensures out { out.new ≡ (event_did self.old proto Timeout word).out }
        ensures few { length out.new ≤ MOST_AFTER_EVENT }
    {
        self.event(proto, AutoEvent::Timeout, word, out);
    }

    /// The configured network control protocols go Up where `on`, else Down, in the order of `Proto`, and after them BACP
    /// where `bacp`.
    pub fn run_ncps(&mut self, on: bool, bacp: bool, word: u64, out: &mut LinkOut)
        ensures link { self.new ≡ link_with self.old (run_did self.old on bacp word) }
        ensures out { out.new ≡ (run_did self.old on bacp word).out }
        ensures few { length out.new ≤ MOST_AFTER_RUN }
    {
        out.clear();
        self.automata.run(on, bacp, word, &mut self.outbox, out);
    }

    /// Takes octets up to the end of the first frame or discard, and answers how many that is. What a frame carries comes for
    /// its automaton, or is handed up, or its protocol is rejected; while LCP isn't Opened everything but LCP is discarded.
    /// Packets of BAP are handed up where BACP is configured.
    /// Short headers are read while LCP grants them (RFC 1661 sections 6.5 and 6.6).
    #[tactic(auto, unfolding(crate::specs::Link::fed_with))]
    pub fn bytes(&mut self, piece: &[u8], word: u64, out: &mut LinkOut) -> usize
        ensures link { self.new ≡ (fed_with self.old piece.now word).link }
        ensures out { out.new ≡ (fed_with self.old piece.now word).out }
        ensures few { length out.new ≤ MOST_AFTER_FRAME }
        ensures used { result ≡ (fed_with self.old piece.now word).used }
        ensures within { result ≤ length piece.now }
        ensures progress { 0 < length piece.now → 0 < result }
    {
        out.clear();
        let (ac, pf) = self.automata.short_headers();
        self.deframer.set_short(ac, pf);
        let fed = self.deframer.feed(piece);
        if self.deframer.has_frame() {
            self.automata
                .hear(self.deframer.frame(), word, &mut self.outbox, out);
        }
        fed.used
    }

    /// Takes a packet of at most 8,193 octets that came inside multilink, on the control link of its bundle. One of LCP or
    /// of multilink is discarded, one of BAP where BACP is configured, and any while LCP isn't Opened; others come for their
    /// automaton, or are handed up, or their protocol is rejected. RFC 1990 section 2 has none of LCP's negotiation there;
    /// here it is all of LCP.
    pub fn inner(&mut self, protocol: u16, octets: &[u8], word: u64, out: &mut LinkOut)
        requires { length octets.now ≤ MOST_INNER }
        ensures link { self.new ≡ link_with self.old (inner_did self.old protocol octets.now word) }
        ensures out { out.new ≡ (inner_did self.old protocol octets.now word).out }
        ensures few { length out.new ≤ MOST_AFTER_FRAME }
    {
        out.clear();
        let packet = FrameRef {
            protocol,
            info: octets,
        };
        self.automata
            .hear_inner(packet, word, &mut self.outbox, out);
    }

    /// Frames a packet of at most 1,500 octets of a protocol above LCP that has no automaton, as BAP (RFC 2125), in the form that
    /// the peer asked for.
    pub fn send_packet(&self, protocol: u16, packet: &[u8], out: &mut LinkOut)
        requires { length packet.now ≤ MOST_PACKET }
        ensures { out.new ≡ Push (enc (form_of self.now.automata.lcp) protocol packet.now) ∷ [] }
    {
        out.clear();
        out.push_frame(self.automata.form(Proto::Bacp), protocol, packet);
    }

    /// Is as a new link of the same settings.
    pub fn reset(&mut self)
        ensures { self.new ≡ link_begun self.old.tables }
    {
        self.automata.reset();
        clear(&mut self.deframer);
        self.deframer.set_short(false, false);
    }

    /// The state of a protocol's automaton: None exactly where it isn't configured.
    pub fn state(&self, proto: Proto) -> Option<AutoState>
        ensures { result ≡ option_map (λ a. a.state) (auto_at self.now.automata proto) }
    {
        self.automata.state(proto)
    }

    /// The own list of a protocol that the peer acknowledged, in Ack-Rcvd and Opened.
    pub fn mine(&self, proto: Proto) -> Option<&OptList>
        ensures { option_map (λ list. list.now) result
            ≡ option_and_then mine_of (auto_at self.now.automata proto) }
    {
        self.automata.mine(proto)
    }

    /// The peer's list of a protocol that this end acknowledged, in Ack-Sent and Opened.
    pub fn peer(&self, proto: Proto) -> Option<&OptList>
        ensures { option_map (λ list. list.now) result
            ≡ option_and_then peer_of (auto_at self.now.automata proto) }
    {
        self.automata.peer(proto)
    }

    /// Whether the restart timer of a protocol is on.
    pub fn timer_on(&self, proto: Proto) -> bool
        ensures { result ≡ is_timed_at self.now.automata proto }
    {
        self.automata.timer_on(proto)
    }

    /// The octets that are kept of an unfinished frame, escapes undone.
    pub fn held(&self) -> usize
        ensures value { result ≡ length self.now.deframer.standing.plain }
        ensures limit { result ≤ MOST_FRAME }
    {
        self.deframer.held()
    }

    /// The link's deframer, which lends the frame that the last call of [`bytes`](Link::bytes) read.
    pub fn deframer(&self) -> &Deframer
        ensures { result.now ≡ self.now.deframer }
    {
        &self.deframer
    }

    /// An event of a protocol's automaton.
    fn event(&mut self, proto: Proto, event: AutoEvent, word: u64, out: &mut LinkOut)
        ensures link { self.new ≡ link_with self.old (event_did self.old proto event word) }
        ensures out { out.new ≡ (event_did self.old proto event word).out }
        ensures few { length out.new ≤ MOST_AFTER_EVENT }
    {
        out.clear();
        self.automata
            .step(proto, Given::Event(event), word, &mut self.outbox, out);
    }

    /// Whether LCP is beyond Initial and Starting.
    fn has_line(&self) -> bool
        ensures { result ≡ not (is_off self.now.automata.lcp.state) }
    {
        !matches!(
            self.automata.state(Proto::Lcp),
            Some(AutoState::Initial | AutoState::Starting)
        )
    }
}

/// Has a deframer stand as after a flag, with no frame lent.
fn clear(deframer: &mut Deframer)
    ensures { deframer.new ≡ cleared deframer.old }
{
    deframer.feed(&[FLAG]);
    deframer.feed(&[]);
}
