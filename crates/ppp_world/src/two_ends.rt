//! The two ends of a world and the frames between them.

ghost use Rattle.std.specs.Prelude.{◌≡◌, ◌+◌, ◌^◌, ℕ, length, OnOk, IfOk};
ghost use Rattle.ppp_conf.specs.Config.{config_seen};
ghost use Rattle.ppp_party.specs.Counted.{AreCounted};
ghost use Rattle.ppp_party.specs.Party.{ends_begun, station_of};
ghost use Rattle.ppp_station.specs.Station.{IsOfAsk, IsStation};
ghost use Rattle.ppp_trunk.specs.Trunk.{IsOfLink};
ghost use Rattle.ppp_world.specs.Counts.{Counts};
ghost use Rattle.ppp_world.specs.Says.{by_end};
ghost use Rattle.ppp_world.specs.Step.{next_delivery, word_of, IsLinked};
ghost use Rattle.ppp_world.specs.World.{most_a_step, BothBegin, IsAnswerIn, Moved};

use crate::step::Step;
use ppp_conf::Config;
use ppp_memory::Memory;
use ppp_party::{Answer, Desk, Happening, Party};
use ppp_script::End;
use ppp_station::{BapAsk, Policy};
use std::alloc::Global;
use std::marker::Model;

/// The two ends of a world, and what their events are done with. It is seen as the two, end a first, and their policies.
#[derive(Drop)]
pub(crate) struct TwoEnds<F: Policy, G: Policy> {
    a: Party<F>,
    b: Party<G>,
    desk: Desk,
}

impl<F: Policy, G: Policy> Model for TwoEnds<F, G> {
    ghost use Rattle.ppp_world.specs.World.{Pair};

    ghost Value = { Pair F G };

    ghost view = { λ e. record { policy_a = e.a.policy; policy_b = e.b.policy; ends = record { own = e.a.party; other = e.b.party } } };
}

impl<F: Policy + Drop, G: Policy + Drop> TwoEnds<F, G> {
    /// Both ends as they begin by the settings, with nothing under way.
    pub(crate) fn new(
        alloc: Global,
        config: &Config,
        policy_a: F,
        policy_b: G,
    ) -> Result<TwoEnds<F, G>, Memory>
        requires a { F.may policy_a }
        requires b { G.may policy_b }
        ensures policy_a { IfOk result (λ e. e.policy_a ≡ policy_a) }
        ensures policy_b { IfOk result (λ e. e.policy_b ≡ policy_b) }
        ensures begin { IfOk result
            (λ e. BothBegin (config_seen config.now) (station_of e.ends.own) (station_of e.ends.other)) }
        ensures begun { IfOk result (λ e. e.ends ≡ ends_begun (station_of e.ends.own) (station_of e.ends.other)) }
    {
        Ok(TwoEnds {
            a: Party::new(alloc, &config.a, policy_a)?,
            b: Party::new(alloc, &config.b, policy_b)?,
            desk: Desk::new(alloc)?,
        })
    }
}

impl<F: Policy, G: Policy> TwoEnds<F, G> {
    /// Does the step of that number, and answers what is answered to one who asks in it.
    pub(crate) fn does(&mut self, step: Step, number: u32) -> Result<Option<Answer>, Memory>
        requires linked { IsLinked (length self.old.ends.own.trunk.links) step }
        requires alike { length self.old.ends.other.trunk.links ≡ length self.old.ends.own.trunk.links }
        requires few_a { AreCounted (2 ^ 61) self.old.ends.own }
        requires few_b { AreCounted (2 ^ 61) self.old.ends.other }
        ensures done { OnOk result (Moved (by_end (F.says self.old.policy_a) (G.says self.old.policy_b))
            number step self.old.ends self.new.ends) }
        ensures answer { IfOk result (λ a. IsAnswerIn number self.old.ends step a) }
        ensures counted_a { (n : ℕ) → AreCounted n self.old.ends.own
            → OnOk result (AreCounted (n + most_a_step) self.new.ends.own) }
        ensures counted_b { (n : ℕ) → AreCounted n self.old.ends.other
            → OnOk result (AreCounted (n + most_a_step) self.new.ends.other) }
        ensures station_a { OnOk result (IsStation (station_of self.new.ends.own)) }
        ensures station_b { OnOk result (IsStation (station_of self.new.ends.other)) }
        ensures policy_a { self.new.policy_a ≡ self.old.policy_a }
        ensures policy_b { self.new.policy_b ≡ self.old.policy_b }
    {
        let answer = self.act(step, number)?;
        // What always holds of the two stations is told by them.
        let _ = self.a.station();
        let _ = self.b.station();
        Ok(answer)
    }

    /// Does the step.
    fn act(&mut self, step: Step, number: u32) -> Result<Option<Answer>, Memory>
        requires linked { IsLinked (length self.old.ends.own.trunk.links) step }
        requires alike { length self.old.ends.other.trunk.links ≡ length self.old.ends.own.trunk.links }
        requires few_a { AreCounted (2 ^ 61) self.old.ends.own }
        requires few_b { AreCounted (2 ^ 61) self.old.ends.other }
        ensures done { OnOk result (Moved (by_end (F.says self.old.policy_a) (G.says self.old.policy_b))
            number step self.old.ends self.new.ends) }
        ensures answer { IfOk result (λ a. IsAnswerIn number self.old.ends step a) }
        ensures counts { OnOk result (Counts self.old.ends self.new.ends) }
        ensures policy_a { self.new.policy_a ≡ self.old.policy_a }
        ensures policy_b { self.new.policy_b ≡ self.old.policy_b }
    {
        match step {
            Step::Happens(at, link, what) => self.happen(at, link, what, number)?,
            Step::Delivers(at, link) => self.deliver(at, link, number)?,
            Step::Asks(at, link, request) => return self.ask(at, link, request, number),
            Step::Tells(at, link, status) => self.tell(at, link, status, number)?,
            Step::Tries(at, link) => self.try_again(at, link, number)?,
            Step::Loses(at, link, place) => self.lose(at, link, place),
            Step::Reboots(at) => self.reboot(at, number)?,
            Step::Reports | Step::Rests => {}
        }
        Ok(None)
    }

    /// Something happens to a link of an end.
    fn happen(&mut self, at: End, link: u8, what: Happening, number: u32) -> Result<(), Memory>
        requires link { IsOfLink (length self.old.ends.own.trunk.links) link }
        requires alike { length self.old.ends.other.trunk.links ≡ length self.old.ends.own.trunk.links }
        requires few_a { AreCounted (2 ^ 61) self.old.ends.own }
        requires few_b { AreCounted (2 ^ 61) self.old.ends.other }
        ensures done { OnOk result (Moved (by_end (F.says self.old.policy_a) (G.says self.old.policy_b))
            number (Step.Happens at link what) self.old.ends self.new.ends) }
        ensures counts { OnOk result (Counts self.old.ends self.new.ends) }
        ensures policy_a { self.new.policy_a ≡ self.old.policy_a }
        ensures policy_b { self.new.policy_b ≡ self.old.policy_b }
    {
        let word = word_at(at, number);
        match at {
            End::A => self.a.happen(&mut self.b, &mut self.desk, what, link, word),
            End::B => self.b.happen(&mut self.a, &mut self.desk, what, link, word),
        }
    }

    /// An end takes the front frame under way to it on a link.
    fn deliver(&mut self, at: End, link: u8, number: u32) -> Result<(), Memory>
        requires link { IsOfLink (length self.old.ends.own.trunk.links) link }
        requires alike { length self.old.ends.other.trunk.links ≡ length self.old.ends.own.trunk.links }
        requires few_a { AreCounted (2 ^ 61) self.old.ends.own }
        requires few_b { AreCounted (2 ^ 61) self.old.ends.other }
        ensures done { OnOk result (Moved (by_end (F.says self.old.policy_a) (G.says self.old.policy_b))
            number (Step.Delivers at link) self.old.ends self.new.ends) }
        ensures counts { OnOk result (Counts self.old.ends self.new.ends) }
        ensures policy_a { self.new.policy_a ≡ self.old.policy_a }
        ensures policy_b { self.new.policy_b ≡ self.old.policy_b }
    {
        let word = word_at(at, number);
        match at {
            End::A => self.a.deliver(&mut self.b, &mut self.desk, link, word),
            End::B => self.b.deliver(&mut self.a, &mut self.desk, link, word),
        }
    }

    /// An end asks the peer of a link's bundle.
    fn ask(
        &mut self,
        at: End,
        link: u8,
        request: BapAsk,
        number: u32,
    ) -> Result<Option<Answer>, Memory>
        requires link { IsOfLink (length self.old.ends.own.trunk.links) link }
        requires asked { IsOfAsk request (length self.old.ends.own.trunk.links) }
        requires alike { length self.old.ends.other.trunk.links ≡ length self.old.ends.own.trunk.links }
        requires few_a { AreCounted (2 ^ 61) self.old.ends.own }
        requires few_b { AreCounted (2 ^ 61) self.old.ends.other }
        ensures done { OnOk result (Moved (by_end (F.says self.old.policy_a) (G.says self.old.policy_b))
            number (Step.Asks at link request) self.old.ends self.new.ends) }
        ensures answer { IfOk result (λ a. IsAnswerIn number self.old.ends (Step.Asks at link request) a) }
        ensures counts { OnOk result (Counts self.old.ends self.new.ends) }
        ensures policy_a { self.new.policy_a ≡ self.old.policy_a }
        ensures policy_b { self.new.policy_b ≡ self.old.policy_b }
    {
        let word = word_at(at, number);
        match at {
            End::A => self.a.ask(&mut self.b, &mut self.desk, link, request, word),
            End::B => self.b.ask(&mut self.a, &mut self.desk, link, request, word),
        }
    }

    /// An end tells the peer of a link's bundle how a call went.
    fn tell(&mut self, at: End, link: u8, status: u8, number: u32) -> Result<(), Memory>
        requires link { IsOfLink (length self.old.ends.own.trunk.links) link }
        requires alike { length self.old.ends.other.trunk.links ≡ length self.old.ends.own.trunk.links }
        requires few_a { AreCounted (2 ^ 61) self.old.ends.own }
        requires few_b { AreCounted (2 ^ 61) self.old.ends.other }
        ensures done { OnOk result (Moved (by_end (F.says self.old.policy_a) (G.says self.old.policy_b))
            number (Step.Tells at link status) self.old.ends self.new.ends) }
        ensures counts { OnOk result (Counts self.old.ends self.new.ends) }
        ensures policy_a { self.new.policy_a ≡ self.old.policy_a }
        ensures policy_b { self.new.policy_b ≡ self.old.policy_b }
    {
        let word = word_at(at, number);
        match at {
            End::A => self.a.tell(&mut self.b, &mut self.desk, link, status, word),
            End::B => self.b.tell(&mut self.a, &mut self.desk, link, status, word),
        }
    }

    /// BAP's timer fires at the bundle whose control link that is.
    fn try_again(&mut self, at: End, link: u8, number: u32) -> Result<(), Memory>
        requires link { IsOfLink (length self.old.ends.own.trunk.links) link }
        requires alike { length self.old.ends.other.trunk.links ≡ length self.old.ends.own.trunk.links }
        requires few_a { AreCounted (2 ^ 61) self.old.ends.own }
        requires few_b { AreCounted (2 ^ 61) self.old.ends.other }
        ensures done { OnOk result (Moved (by_end (F.says self.old.policy_a) (G.says self.old.policy_b))
            number (Step.Tries at link) self.old.ends self.new.ends) }
        ensures counts { OnOk result (Counts self.old.ends self.new.ends) }
        ensures policy_a { self.new.policy_a ≡ self.old.policy_a }
        ensures policy_b { self.new.policy_b ≡ self.old.policy_b }
    {
        let word = word_at(at, number);
        match at {
            End::A => self.a.try_again(&mut self.b, &mut self.desk, link, word),
            End::B => self.b.try_again(&mut self.a, &mut self.desk, link, word),
        }
    }

    /// The frame of that place under way to an end on a link is lost.
    fn lose(&mut self, at: End, link: u8, place: u16)
        requires link { IsOfLink (length self.old.ends.own.trunk.links) link }
        requires alike { length self.old.ends.other.trunk.links ≡ length self.old.ends.own.trunk.links }
        ensures done { (k : ℕ) → Moved (by_end (F.says self.old.policy_a) (G.says self.old.policy_b))
            k (Step.Loses at link place) self.old.ends self.new.ends }
        ensures counts { Counts self.old.ends self.new.ends }
        ensures policy_a { self.new.policy_a ≡ self.old.policy_a }
        ensures policy_b { self.new.policy_b ≡ self.old.policy_b }
    {
        match at {
            End::A => self.a.lose(link, place),
            End::B => self.b.lose(link, place),
        }
    }

    /// An end begins anew. The lines that go down by it at the other end take the other end's word.
    fn reboot(&mut self, at: End, number: u32) -> Result<(), Memory>
        requires alike { length self.old.ends.other.trunk.links ≡ length self.old.ends.own.trunk.links }
        requires few_a { AreCounted (2 ^ 61) self.old.ends.own }
        requires few_b { AreCounted (2 ^ 61) self.old.ends.other }
        ensures done { OnOk result (Moved (by_end (F.says self.old.policy_a) (G.says self.old.policy_b))
            number (Step.Reboots at) self.old.ends self.new.ends) }
        ensures counts { OnOk result (Counts self.old.ends self.new.ends) }
        ensures policy_a { self.new.policy_a ≡ self.old.policy_a }
        ensures policy_b { self.new.policy_b ≡ self.old.policy_b }
    {
        match at {
            End::A => {
                let word = word_at(End::B, number);
                self.a.reboot(&mut self.b, &mut self.desk, word)
            }
            End::B => {
                let word = word_at(End::A, number);
                self.b.reboot(&mut self.a, &mut self.desk, word)
            }
        }
    }

    /// The delivery of the front frame of the first queue that isn't empty, of a's links upwards and then of b's.
    pub(crate) fn next_delivery(&self) -> Step
        ensures value { result ≡ next_delivery self.now.ends }
        ensures linked { length self.now.ends.other.trunk.links ≡ length self.now.ends.own.trunk.links
            → IsLinked (length self.now.ends.own.trunk.links) result }
    {
        match (self.a.first_busy(), self.b.first_busy()) {
            (Some(link), _) => Step::Delivers(End::A, link),
            (None, Some(link)) => Step::Delivers(End::B, link),
            (None, None) => Step::Rests,
        }
    }

    /// End a.
    pub(crate) fn a(&self) -> &Party<F>
        ensures party { result.now.party ≡ self.now.ends.own }
        ensures policy { result.now.policy ≡ self.now.policy_a }
    {
        &self.a
    }

    /// End b.
    pub(crate) fn b(&self) -> &Party<G>
        ensures party { result.now.party ≡ self.now.ends.other }
        ensures policy { result.now.policy ≡ self.now.policy_b }
    {
        &self.b
    }
}

/// The word of the step of that number at an end.
fn word_at(at: End, number: u32) -> u64
    ensures { result ≡ word_of at number }
{
    match at {
        End::A => 2 * u64::from(number),
        End::B => 2 * u64::from(number) + 1,
    }
}
