//! One end of a world.

ghost use Rattle.std.specs.Prelude.{◌≡◌, ◌+◌, ◌*◌, ◌-◌, ◌^◌, ◌<◌, ◌≤◌, ◌∷◌, ◌++◌, [], ℕ, List, length, map, IfOk, OnOk, Some, slice_get};
ghost use Rattle.std.specs.Option.{IfSome};
ghost use Rattle.ppp_conf.specs.EndConfig.{end_seen};
ghost use Rattle.ppp_party.specs.BapSpans.{bap_oldest, older, oldest_seen};
ghost use Rattle.ppp_bap.specs.declared.bap.TheConstants.{BUNDLES};
ghost use Rattle.ppp_party.specs.Calls.{answer_in, begins_with_frame, keeps_drawn, notes_ask, notes_drawn, ordinal_if, Calls};
ghost use Rattle.ppp_party.specs.Counted.{AllCounted, AreCounted};
ghost use Rattle.ppp_party.specs.Downs.{AllShortDowns};
ghost use Rattle.ppp_party.specs.Frame as way;
ghost use Rattle.ppp_party.specs.Happening.{happening_seen};
ghost use Rattle.ppp_party.specs.Ledger.{ledgers_begun};
ghost use Rattle.ppp_party.specs.Party as spec;
ghost use Rattle.ppp_party.specs.Party.{asks, cleared, downs, first_busy, happens, heard_on, loses, party_begun, posted, reboots, station_of, tells, tries, unheard, Delivered, IsParty, Taken};
ghost use Rattle.ppp_party.specs.Spans.{oldest_on, sent_on};
ghost use Rattle.ppp_link.specs.Link.{Link};
ghost use Rattle.ppp_station.specs.Station.{asks_peer, moves, tells_peer, tries_again, BeginsBy, IsOfAsk as IsAskOf, IsStation};
ghost use Rattle.ppp_station.specs.Steps.{bundle_timed};
ghost use Rattle.ppp_trunk.specs.Moves.{AreLinked};
ghost use Rattle.ppp_trunk.specs.Trunk.{IsOfLink};
ghost use Rattle.ppp_trunk.specs.StationOut.{AreShort};
ghost use Rattle.ppp_trunk.specs.Steps.{Takes};
ghost use Rattle.ppp_trunk.specs.declared.station_out.TheConstants.{MOST_ENTRIES};

use crate::carried::lent_carried;
use crate::desk::{Desk, post};
use crate::frame::Frame;
use crate::happening::{Happening, happen_at};
use crate::ledgers::Ledgers;
use crate::queue::Queue;
use crate::states::States;
use ppp_bap::BUNDLES;
use ppp_conf::EndConfig;
use ppp_memory::Memory;
use ppp_packet::Proto;
use ppp_station::{AskRefused, BapAsk, Policy, Station, StationEntry, StationEvent, StationOut};
use std::alloc::Global;
use std::marker::Model;

/// What is answered to one who asked the peer: it was sent, or why it wasn't.
pub type Answer = Result<(), AskRefused>;

/// An ordinal, and the least link on which it is under way, from 1 on.
#[derive(Clone, Copy, Debug, PartialEq, Eq)]
pub struct Oldest {
    /// The ordinal.
    pub mark: u64,
    /// The link.
    pub link: u8,
}

/// One end of a world: its station, what is counted of its requests, and the frames under way to it, link by link.
#[derive(Drop)]
pub struct Party<F: Policy> {
    station: Station<F>,
    drawn: u64,
    ordinals: [u64; BUNDLES],
    ledgers: Vec<Ledgers>,
    incoming: Vec<Queue>,
}

impl<F: Policy> Model for Party<F> {
    ghost use Rattle.ppp_party.specs.Party as spec;

    ghost Value = { spec.Whole F };

    ghost view = { λ p. spec.party_seen p.station.policy p.station.station p.drawn p.ordinals p.ledgers.items p.incoming.items };

    ghost invariant = { λ p. spec.IsParty (spec.party_seen p.station.policy p.station.station p.drawn p.ordinals p.ledgers.items p.incoming.items).party };
}

impl<F: Policy + Drop> Party<F> {
    /// An end of these settings as it begins, with that policy.
    pub fn new(alloc: Global, config: &EndConfig, policy: F) -> Result<Party<F>, Memory>
        requires { F.may policy }
        ensures policy { IfOk result (λ p. p.policy ≡ policy) }
        ensures begins { IfOk result (λ p. BeginsBy (end_seen config.now) (station_of p.party)) }
        ensures begun { IfOk result (λ p. p.party ≡ party_begun (station_of p.party)) }
        ensures whole { IfOk result (λ p. IsParty p.party) }
    {
        let station = Station::new(alloc, config, policy)?;
        let mut ledgers = Vec::new(alloc);
        let mut incoming = Vec::new(alloc);
        for _ in 0..station.links() {
            put_ledgers(&mut ledgers, Ledgers::new(alloc))?;
            put_queue(&mut incoming, Queue::new(alloc))?;
        }
        Ok(Party {
            station,
            drawn: 0,
            ordinals: [0; BUNDLES],
            ledgers,
            incoming,
        })
    }
}

impl<F: Policy> Party<F> {
    /// Its station.
    pub fn station(&self) -> &Station<F>
        ensures policy { result.now.policy ≡ self.now.policy }
        ensures station { result.now.station ≡ station_of self.now.party }
        ensures whole { IsStation (station_of self.now.party) }
    {
        &self.station
    }

    /// The ordinal of the last packet of BAP that it sent of its own accord, 0 before the first.
    pub fn drawn(&self) -> u64
        ensures { result ≡ self.now.party.calls.drawn }
    {
        self.drawn
    }

    /// The least ordinal of a request of BAP of this end that is under way itself, or whose answer is, and the least link on which
    /// it is; the last ordinal drawn, if none is.
    pub fn oldest_call<G: Policy>(&self, other: &Party<G>) -> Oldest
        requires { length other.now.party.trunk.links ≡ length self.now.party.trunk.links }
        ensures { oldest_seen result ≡ bap_oldest (record { own = self.now.party; other = other.now.party }) }
    {
        let mut oldest = Oldest {
            mark: self.drawn,
            link: 1,
        };
        for i in 0..self.station.links() {
            let answered = self.incoming[usize::from(i)].oldest_bap_answer(self.drawn);
            let mark = other.incoming[usize::from(i)].oldest_bap_request(answered);
            oldest = older(oldest, mark, i + 1);
        }
        oldest
    }

    /// The ordinal of the last Configure-Request of a protocol that it sent on a link, 0 before the first.
    pub fn sent(&self, link: u8, proto: Proto) -> u64
        requires { IsOfLink (length self.now.party.trunk.links) link }
        ensures { result ≡ sent_on link proto self.now.party }
    {
        self.ledgers[usize::from(link) - 1].sent(proto)
    }

    /// The least ordinal of a request of this end that is under way itself, or whose answer is; the last one's, if none is.
    pub fn oldest<G: Policy>(&self, other: &Party<G>, link: u8, proto: Proto) -> u64
        requires own { IsOfLink (length self.now.party.trunk.links) link }
        requires other { IsOfLink (length other.now.party.trunk.links) link }
        ensures { result ≡ oldest_on link proto (record { own = self.now.party; other = other.now.party }) }
    {
        let i = usize::from(link) - 1;
        let answered = self.incoming[i].oldest_answer(proto, self.sent(link, proto));
        other.incoming[i].oldest_request(proto, answered)
    }

    /// The first link with a frame under way to the end.
    pub fn first_busy(&self) -> Option<u8>
        ensures value { result ≡ first_busy 1 self.now.party.incoming }
        ensures within { IfSome result (λ l. IsOfLink (length self.now.party.trunk.links) l) }
    {
        for i in 0..self.station.links() {
            if !self.incoming[usize::from(i)].is_empty() {
                return Some(i + 1);
            }
        }
        None
    }

    /// Something happens at a link of the end. What it sends is noted, and goes to the other.
    pub fn happen<G: Policy>(
        &mut self,
        other: &mut Party<G>,
        desk: &mut Desk,
        what: Happening,
        link: u8,
        word: u64,
    ) -> Result<(), Memory>
        requires link { IsOfLink (length self.old.party.trunk.links) link }
        requires alike { length other.old.party.trunk.links ≡ length self.old.party.trunk.links }
        requires few { AreCounted (2 ^ 62) self.old.party }
        ensures done { OnOk result (record { own = self.new.party; other = other.new.party }
            ≡ happens (happening_seen what) link word (record { own = self.old.party; other = other.old.party })) }
        ensures short { AreShort (moves (happening_seen what) link (station_of self.old.party) word).out.entries }
        ensures whole { IsParty self.new.party }
        ensures whole_peer { IsParty other.new.party }
        ensures policy { self.new.policy ≡ self.old.policy }
        ensures peer { other.new.policy ≡ other.old.policy }
        ensures counted { (n : ℕ) → AreCounted n self.old.party → OnOk result (AreCounted (n + MOST_ENTRIES) self.new.party) }
    {
        happen_at(&mut self.station, what, link, word, &mut desk.out);
        self.post(other, desk, 0)
    }

    /// The peer of a link's bundle is asked for a link, or to drop one, and what came of it is answered. What is sent draws an
    /// ordinal, and goes to the other.
    pub fn ask<G: Policy>(
        &mut self,
        other: &mut Party<G>,
        desk: &mut Desk,
        link: u8,
        request: BapAsk,
        word: u64,
    ) -> Result<Option<Answer>, Memory>
        requires link { IsOfLink (length self.old.party.trunk.links) link }
        requires asked { IsAskOf request (length self.old.party.trunk.links) }
        requires alike { length other.old.party.trunk.links ≡ length self.old.party.trunk.links }
        requires few { AreCounted (2 ^ 62) self.old.party }
        ensures done { OnOk result (record { own = self.new.party; other = other.new.party }
            ≡ asks link request word (record { own = self.old.party; other = other.old.party })) }
        ensures answer { IfOk result (λ a. a ≡ answer_in (asks_peer link request (station_of self.old.party) word).out.entries) }
        ensures short { AreShort (asks_peer link request (station_of self.old.party) word).out.entries }
        ensures whole { IsParty self.new.party }
        ensures policy { self.new.policy ≡ self.old.policy }
        ensures peer { other.new.policy ≡ other.old.policy }
        ensures counted { (n : ℕ) → AreCounted n self.old.party → OnOk result (AreCounted (n + MOST_ENTRIES) self.new.party) }
    {
        let bundle = self.station.bundles().bundle_of(link);
        self.station
            .event(StationEvent::Ask(link, request), word, &mut desk.out);
        let mark = self.drawn + 1;
        note_ask(&desk.out, bundle, &mut self.drawn, &mut self.ordinals);
        self.post(other, desk, mark)?;
        Ok(answer_in(&desk.out))
    }

    /// The peer of a link's bundle is told how a call went. What is sent draws an ordinal, and goes to the other.
    pub fn tell<G: Policy>(
        &mut self,
        other: &mut Party<G>,
        desk: &mut Desk,
        link: u8,
        status: u8,
        word: u64,
    ) -> Result<(), Memory>
        requires link { IsOfLink (length self.old.party.trunk.links) link }
        requires alike { length other.old.party.trunk.links ≡ length self.old.party.trunk.links }
        requires few { AreCounted (2 ^ 62) self.old.party }
        ensures done { OnOk result (record { own = self.new.party; other = other.new.party }
            ≡ tells link status word (record { own = self.old.party; other = other.old.party })) }
        ensures short { AreShort (tells_peer link status (station_of self.old.party) word).out.entries }
        ensures whole { IsParty self.new.party }
        ensures policy { self.new.policy ≡ self.old.policy }
        ensures peer { other.new.policy ≡ other.old.policy }
        ensures counted { (n : ℕ) → AreCounted n self.old.party → OnOk result (AreCounted (n + MOST_ENTRIES) self.new.party) }
    {
        self.station
            .event(StationEvent::Status(link, status), word, &mut desk.out);
        let mark = self.drawn + 1;
        note_drawn(&desk.out, &mut self.drawn);
        self.post(other, desk, mark)
    }

    /// The timer of BAP fires at the bundle whose control link that is. A request that is sent again keeps its ordinal.
    pub fn try_again<G: Policy>(
        &mut self,
        other: &mut Party<G>,
        desk: &mut Desk,
        link: u8,
        word: u64,
    ) -> Result<(), Memory>
        requires link { IsOfLink (length self.old.party.trunk.links) link }
        requires alike { length other.old.party.trunk.links ≡ length self.old.party.trunk.links }
        requires few { AreCounted (2 ^ 62) self.old.party }
        ensures done { OnOk result (record { own = self.new.party; other = other.new.party }
            ≡ tries link word (record { own = self.old.party; other = other.old.party })) }
        ensures short { AreShort (tries_again link (station_of self.old.party) word).out.entries }
        ensures whole { IsParty self.new.party }
        ensures policy { self.new.policy ≡ self.old.policy }
        ensures peer { other.new.policy ≡ other.old.policy }
        ensures counted { (n : ℕ) → AreCounted n self.old.party → OnOk result (AreCounted (n + MOST_ENTRIES) self.new.party) }
    {
        let mark = self.ordinal_at(link);
        self.station
            .event(StationEvent::BapTimeout(link), word, &mut desk.out);
        self.post(other, desk, mark)
    }

    /// The ordinal of the request that waits of the bundle whose control link that is.
    fn ordinal_at(&self, link: u8) -> u64
        requires { IsOfLink (length self.now.party.trunk.links) link }
        ensures { result ≡ ordinal_if (bundle_timed link self.now.party.trunk) self.now.party.calls }
    {
        let bundles = self.station.bundles();
        match bundles.bundle_of(link) {
            Some(bundle) if bundles.control(bundle) == Some(link) => {
                self.ordinals[usize::from(bundle)]
            }
            _ => 0,
        }
    }

    /// Notes what the station sent, and puts it under way to the other, behind a frame of that mark.
    fn post<G: Policy>(
        &mut self,
        other: &mut Party<G>,
        desk: &mut Desk,
        mark: u64,
    ) -> Result<(), Memory>
        requires few { length desk.old.out.entries ≤ MOST_ENTRIES }
        requires linked { AreLinked (length self.old.party.trunk.links) desk.old.out.entries }
        requires alike { length other.old.party.trunk.links ≡ length self.old.party.trunk.links }
        requires counted { AllCounted (2 ^ 62) self.old.party.ledgers }
        ensures done { OnOk result (record { own = self.new.party; other = other.new.party }
            ≡ posted mark (record { station = station_of self.old.party; out = desk.old.out })
            (record { own = self.old.party; other = other.old.party })) }
        ensures out { desk.new.out ≡ desk.old.out }
        ensures whole { IsParty self.new.party }
        ensures whole_peer { IsParty other.new.party }
        ensures policy { self.new.policy ≡ self.old.policy }
        ensures peer { other.new.policy ≡ other.old.policy }
        ensures counted { (n : ℕ) → AllCounted n self.old.party.ledgers
            → OnOk result (AllCounted (n + MOST_ENTRIES) self.new.party.ledgers) }
    {
        post(
            &desk.out,
            &mut desk.reader,
            mark,
            &mut self.ledgers,
            &mut other.incoming,
        )
    }

    /// The front frame under way to the end on a link is given to the station, if there is one. What it sends is noted,
    /// and goes to the other.
    pub fn deliver<G: Policy>(
        &mut self,
        other: &mut Party<G>,
        desk: &mut Desk,
        link: u8,
        word: u64,
    ) -> Result<(), Memory>
        requires link { IsOfLink (length self.old.party.trunk.links) link }
        requires alike { length other.old.party.trunk.links ≡ length self.old.party.trunk.links }
        requires few { AreCounted (2 ^ 62) self.old.party }
        ensures done { OnOk result (Delivered (F.says self.old.policy) link word
            (record { own = self.old.party; other = other.old.party }) (record { own = self.new.party; other = other.new.party })) }
        ensures whole { IsParty self.new.party }
        ensures policy { self.new.policy ≡ self.old.policy }
        ensures peer { other.new.policy ≡ other.old.policy }
        ensures counted { (n : ℕ) → AreCounted n self.old.party → OnOk result (AreCounted (n + MOST_ENTRIES) self.new.party) }
    {
        let i = usize::from(link) - 1;
        let Some(frame) = self.incoming[i].pop() else {
            return Ok(());
        };
        take(
            &mut self.station,
            &frame,
            link,
            word,
            &mut desk.out,
            &mut self.ledgers[i],
        );
        self.post(other, desk, frame.mark())
    }

    /// The frame of that place under way to the end on a link is lost, from 1 on, if there is one.
    pub fn lose(&mut self, link: u8, place: u16)
        requires { IsOfLink (length self.old.party.trunk.links) link }
        ensures value { (o : spec.Party) → record { own = self.new.party; other = o }
            ≡ loses link place (record { own = self.old.party; other = o }) }
        ensures whole { IsParty self.new.party }
        ensures policy { self.new.policy ≡ self.old.policy }
    {
        self.incoming[usize::from(link) - 1].lose(place);
    }

    /// The end begins anew, and the other sees its lines go down. What is under way both ways is lost.
    pub fn reboot<G: Policy>(
        &mut self,
        other: &mut Party<G>,
        desk: &mut Desk,
        word: u64,
    ) -> Result<(), Memory>
        requires alike { length other.old.party.trunk.links ≡ length self.old.party.trunk.links }
        requires few { AreCounted (2 ^ 61) other.old.party }
        ensures done { OnOk result (record { own = self.new.party; other = other.new.party }
            ≡ reboots word (record { own = self.old.party; other = other.old.party })) }
        ensures short { OnOk result (AllShortDowns word (station_of other.old.party)) }
        ensures whole { IsParty self.new.party }
        ensures whole_peer { IsParty other.new.party }
        ensures policy { self.new.policy ≡ self.old.policy }
        ensures peer { other.new.policy ≡ other.old.policy }
        ensures counted { OnOk result (AreCounted 0 self.new.party) }
        ensures others { (n : ℕ) → AreCounted n other.old.party → OnOk result (AreCounted (n + 16 * MOST_ENTRIES) other.new.party) }
    {
        self.station.event(StationEvent::Reset, word, &mut desk.out);
        self.begin();
        other.clear();
        other.go_down(self, desk, word)
    }

    /// Nothing was counted yet, and nothing is under way to the end.
    fn begin(&mut self)
        ensures party { self.new.party ≡ party_begun (station_of self.old.party) }
        ensures whole { IsParty self.new.party }
        ensures policy { self.new.policy ≡ self.old.policy }
    {
        self.drawn = 0;
        self.ordinals = [0; BUNDLES];
        begin(&mut self.ledgers);
        empty(&mut self.incoming);
    }

    /// What was heard of the peer counts no longer, and nothing is under way to the end.
    fn clear(&mut self)
        ensures party { self.new.party ≡ cleared self.old.party }
        ensures whole { IsParty self.new.party }
        ensures policy { self.new.policy ≡ self.old.policy }
    {
        forget(&mut self.ledgers);
        empty(&mut self.incoming);
    }

    /// All lines go down, one after the other.
    fn go_down<G: Policy>(
        &mut self,
        other: &mut Party<G>,
        desk: &mut Desk,
        word: u64,
    ) -> Result<(), Memory>
        requires alike { length other.old.party.trunk.links ≡ length self.old.party.trunk.links }
        requires few { AreCounted (2 ^ 61) self.old.party }
        requires whole_peer { IsParty other.old.party }
        ensures done { OnOk result (record { own = self.new.party; other = other.new.party }
            ≡ downs (length self.old.party.trunk.links) 1 word (record { own = self.old.party; other = other.old.party })) }
        ensures short { OnOk result (AllShortDowns word (station_of self.old.party)) }
        ensures whole { IsParty self.new.party }
        ensures whole_peer { IsParty other.new.party }
        ensures policy { self.new.policy ≡ self.old.policy }
        ensures peer { other.new.policy ≡ other.old.policy }
        ensures counted { (n : ℕ) → AreCounted n self.old.party → OnOk result (AreCounted (n + 16 * MOST_ENTRIES) self.new.party) }
    {
        for i in 0..self.station.links() {
            self.happen(other, desk, Happening::LineDown, i + 1, word)?;
        }
        Ok(())
    }
}

/// The older of an ordinal and another, which is under way on that link.
fn older(best: Oldest, mark: u64, link: u8) -> Oldest
    ensures { oldest_seen result ≡ older (oldest_seen best) mark link }
{
    if mark < best.mark {
        Oldest { mark, link }
    } else {
        best
    }
}

/// Gives a frame to a link of a station, and notes what is heard of it.
fn take<F: Policy>(
    station: &mut Station<F>,
    frame: &Frame,
    link: u8,
    word: u64,
    out: &mut StationOut,
    ledgers: &mut Ledgers,
)
    requires link { IsOfLink (length station.old.station.trunk.links) link }
    requires whole { IsStation station.old.station }
    ensures taken { Taken (F.says station.old.policy) link frame.now.octets word station.old.station station.new.station out.new }
    ensures whole { IsStation station.new.station }
    ensures policy { station.new.policy ≡ station.old.policy }
    ensures short { AreShort out.new.entries }
    ensures few { length out.new.entries ≤ MOST_ENTRIES }
    ensures linked { AreLinked (length station.new.station.trunk.links) out.new.entries }
    ensures heard { (k : Link) → slice_get station.old.station.trunk.links (link - 1) ≡ Some k
        → ledgers.new ≡ heard_on k frame.now word ledgers.old }
{
    let states = States::of(station.link(link));
    station.event(StationEvent::Bytes(link, frame.octets()), word, out);
    let lent = lent_carried(station.link(link).deframer());
    ledgers.hear(&states, frame.mark(), &lent);
}

/// What is answered to one who asked, if something is.
fn answer_in(out: &StationOut) -> Option<Answer>
    ensures { result ≡ answer_in out.now.entries }
{
    for i in 0..out.count() {
        if let StationEntry::Asked(answer) = out.at(i) {
            return Some(answer);
        }
    }
    None
}

/// The next ordinal is drawn where a frame goes out, and the wait of the bundle keeps it, if there is one.
fn note_ask(out: &StationOut, bundle: Option<u8>, drawn: &mut u64, ordinals: &mut [u64; BUNDLES])
    requires drawn { drawn.old < 2 ^ 63 }
    requires bundle { IfSome bundle (λ b. b < BUNDLES) }
    ensures calls { (c : Calls) → c.drawn ≡ drawn.old → c.ordinals ≡ ordinals.old
        → record c { drawn = drawn.new; ordinals = ordinals.new } ≡ notes_ask bundle out.now.entries c }
    ensures count { length ordinals.new ≡ length ordinals.old }
    ensures few { drawn.new ≤ drawn.old + 1 }
{
    if begins_with_frame(out) {
        keep_drawn(bundle, drawn, ordinals);
    }
}

/// The next ordinal is drawn, and the wait of the bundle keeps it.
fn keep_drawn(bundle: Option<u8>, drawn: &mut u64, ordinals: &mut [u64; BUNDLES])
    requires drawn { drawn.old < 2 ^ 63 }
    requires bundle { IfSome bundle (λ b. b < BUNDLES) }
    ensures calls { (c : Calls) → c.drawn ≡ drawn.old → c.ordinals ≡ ordinals.old
        → record c { drawn = drawn.new; ordinals = ordinals.new } ≡ keeps_drawn bundle c }
    ensures count { length ordinals.new ≡ length ordinals.old }
    ensures next { drawn.new ≡ drawn.old + 1 }
{
    *drawn += 1;
    if let Some(bundle) = bundle {
        ordinals[usize::from(bundle)] = *drawn;
    }
}

/// The next ordinal is drawn where a frame goes out.
fn note_drawn(out: &StationOut, drawn: &mut u64)
    requires { drawn.old < 2 ^ 63 }
    ensures calls { (c : Calls) → c.drawn ≡ drawn.old → record c { drawn = drawn.new } ≡ notes_drawn out.now.entries c }
    ensures few { drawn.new ≤ drawn.old + 1 }
{
    if begins_with_frame(out) {
        *drawn += 1;
    }
}

/// Whether a frame goes out before anything is told.
fn begins_with_frame(out: &StationOut) -> bool
    ensures { result ≡ begins_with_frame out.now.entries }
{
    0 < out.count() && matches!(out.at(0), StationEntry::Push { .. })
}

/// Puts ledgers behind others.
fn put_ledgers(ledgers: &mut Vec<Ledgers>, one: Ledgers) -> Result<(), Memory>
    ensures { OnOk result (ledgers.new.items ≡ ledgers.old.items ++ one ∷ []) }
{
    ledgers.push(one).map_err(|_| Memory)
}

/// Puts a queue behind others.
fn put_queue(incoming: &mut Vec<Queue>, queue: Queue) -> Result<(), Memory>
    ensures { OnOk result (incoming.new.items ≡ incoming.old.items ++ queue ∷ []) }
{
    incoming.push(queue).map_err(|_| Memory)
}

/// Loses what is under way on all links.
fn empty(incoming: &mut Vec<Queue>)
    ensures { incoming.new.items ≡ map (λ (queue : List way.Frame). []) incoming.old.items }
{
    for i in 0..incoming.len() {
        incoming[i].clear();
    }
}

/// What was heard of the peer counts no longer.
fn forget(ledgers: &mut Vec<Ledgers>)
    ensures { ledgers.new.items ≡ map unheard ledgers.old.items }
{
    for i in 0..ledgers.len() {
        ledgers[i].forget();
    }
}

/// Nothing was counted yet.
fn begin(ledgers: &mut Vec<Ledgers>)
    ensures { ledgers.new.items ≡ map (λ gs. ledgers_begun) ledgers.old.items }
{
    for i in 0..ledgers.len() {
        ledgers[i].begin();
    }
}
