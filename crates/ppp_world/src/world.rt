//! The world of a script.

ghost use Rattle.std.specs.Prelude.{◌≡◌, ◌≢◌, ◌↔◌, ◌+◌, ◌≤◌, ◌++◌, ◌<◌, false, length, IsNone, IsSome, OnOk, IfOk, None, Some};
ghost use Rattle.std.specs.String.{string_bytes};
ghost use Rattle.ppp_conf.specs.Config.{config_seen};
ghost use Rattle.ppp_party.specs.Party.{station_of};
ghost use Rattle.ppp_script.specs.Event.{steps_in};
ghost use Rattle.ppp_script.specs.declared.script.TheConstants.{MOST_STEPS};
ghost use Rattle.ppp_world.specs.Agreement.{agree_on, AreOpenedOn};
ghost use Rattle.ppp_world.specs.Makes.{StartEverywhere};
ghost use Rattle.ppp_world.specs.Run.{AgreeEverywhere};
ghost use Rattle.ppp_world.specs.Says.{by_end};
ghost use Rattle.ppp_world.specs.Step.{next_delivery, step_of, IsLinked};
ghost use Rattle.ppp_world.specs.World.{answer_of, fault_in, world_of, Does, DoesStep, IsAnswerIn, IsBegun, IsSound, Settles, Shows, UnlessMemory};

use crate::agreement::agree;
use crate::ask_line::write_ask;
use crate::report::write_show;
use crate::span::{Ordinals, wider_since};
use crate::step::{Step, settling};
use crate::two_ends::TwoEnds;
use crate::world_fault::WorldFault;
use ppp_conf::Config;
use ppp_memory::Memory;
use ppp_packet::Proto;
use ppp_party::Answer;
use ppp_script::Event;
use ppp_station::{Policy, Station};
use std::alloc::Global;
use std::marker::Model;

/// Two whole ends, a and b, and the frames under way between them on up to 16 links: the state that the events of a script
/// lead to, and the report of it. The k-th step takes the word 2 k at end a, and 2 k + 1 at end b. An end that begins anew takes
/// none: the lines that go down by it at the other end take the other end's word.
#[derive(Drop)]
pub struct World<F: Policy, G: Policy> {
    ends: TwoEnds<F, G>,
    steps: u32,
    report: String,
    halt: Option<WorldFault>,
}

impl<F: Policy, G: Policy> Model for World<F, G> {
    ghost use Rattle.std.specs.String.{string_bytes};
    ghost use Rattle.ppp_world.specs.World.{IsSoundUnless};
    ghost use Rattle.ppp_world.specs.World as spec;

    ghost Value = { spec.Whole F G };

    ghost view = { λ w. record { policy_a = w.ends.policy_a; policy_b = w.ends.policy_b; world = spec.world_of w.ends.ends w.steps (string_bytes w.report) w.halt } };

    ghost invariant = { λ w. IsSoundUnless w.halt w.ends.ends w.steps };
}

impl<F: Policy + Drop, G: Policy + Drop> World<F, G> {
    /// Two stations as they begin by the settings of both ends, each with its policy, nothing under way and an empty report. It is
    /// refused for want of memory alone.
    pub fn new(
        alloc: Global,
        config: &Config,
        policy_a: F,
        policy_b: G,
    ) -> Result<World<F, G>, Memory>
        requires a { F.may policy_a }
        requires b { G.may policy_b }
        ensures policy_a { IfOk result (λ w. w.policy_a ≡ policy_a) }
        ensures policy_b { IfOk result (λ w. w.policy_b ≡ policy_b) }
        ensures begun { IfOk result (λ w. IsBegun (config_seen config.now) w.world) }
        ensures starts { IfOk result (λ w. StartEverywhere w.world.ends) }
    {
        let ends = TwoEnds::new(alloc, config, policy_a, policy_b)?;
        Ok(World {
            ends,
            steps: 0,
            report: String::new(alloc),
            halt: None,
        })
    }

    /// The report, by value.
    pub(crate) fn into_report(self) -> Vec<u8>
        ensures { result.items ≡ self.world.report }
    {
        self.report.into_bytes()
    }
}

impl<F: Policy, G: Policy> World<F, G> {
    /// Does the steps of an event: at most 100,000 may have been done with them. An event of a link that isn't there does
    /// nothing, which is a step too.
    ///
    /// Outstanding comes exactly where a step would make an end's requests under way span more than 255 ordinals: those before
    /// it are done and counted. After a refusal no further step is done, and every call gives the same refusal. After want of
    /// memory nothing is known of the two ends and of the report.
    ///
    /// `done` says what an event does for what the policies answer, and what holds after each step that is done, if no call was
    /// refused before: two Opened ends of a protocol agree, on each link; a frame that is under way there and carries a control
    /// protocol is spelt as it is sent; where a bundle of each end holds the same links, both have the same control link; each step
    /// is for the two ends of a protocol a list of their own events; and a delivery's link lends the frame that its octets read as.
    pub fn step(&mut self, event: &Event) -> Result<(), WorldFault>
        requires { self.old.world.steps + steps_in event.now ≤ MOST_STEPS }
        ensures done { UnlessMemory self.new.world.halt (Does (by_end (F.says self.old.policy_a) (G.says self.old.policy_b)) event.now self.old.world self.new.world) }
        ensures answer { result ≡ answer_of self.new.world.halt }
        ensures halted { IsSome self.old.world.halt → self.new.world ≡ self.old.world }
        ensures steps { self.new.world.steps ≤ self.old.world.steps + steps_in event.now }
        ensures later { self.old.world.steps ≤ self.new.world.steps }
        ensures policy_a { self.new.policy_a ≡ self.old.policy_a }
        ensures policy_b { self.new.policy_b ≡ self.old.policy_b }
    {
        self.run(event);
        match self.halt {
            None => Ok(()),
            Some(fault) => Err(fault),
        }
    }

    /// Whether the two ends of a protocol on link `link`, from 1 on, agree: each end's granted options are those that the other
    /// acknowledged, both tables allow them, and the two lists fit. None exactly where not both are Opened, as on a link or in
    /// a protocol that isn't there. It is never false. It may be asked as long as no step was refused.
    pub fn agree(&self, link: u8, proto: Proto) -> Option<bool>
        requires { self.now.world.halt ≡ None }
        ensures value { result ≡ agree_on link proto self.now.world.ends }
        ensures none { IsNone result ↔ ¬ (AreOpenedOn link proto self.now.world.ends) }
        ensures never_false { result ≢ Some false }
    {
        let (a, b) = (self.ends.a().station(), self.ends.b().station());
        agree(a.trunk(), b.trunk(), link, proto)
    }

    /// End a, as the steps left it. It may be asked for as long as no step was refused.
    pub fn a(&self) -> &Station<F>
        requires { self.now.world.halt ≡ None }
        ensures station { result.now.station ≡ station_of self.now.world.ends.own }
        ensures policy { result.now.policy ≡ self.now.policy_a }
    {
        self.ends.a().station()
    }

    /// End b, as the steps left it. It may be asked for as long as no step was refused.
    pub fn b(&self) -> &Station<G>
        requires { self.now.world.halt ≡ None }
        ensures station { result.now.station ≡ station_of self.now.world.ends.other }
        ensures policy { result.now.policy ≡ self.now.policy_b }
    {
        self.ends.b().station()
    }

    /// How many steps were done. A step that was refused doesn't count.
    pub fn steps(&self) -> u32
        ensures { result ≡ self.now.world.steps }
    {
        self.steps
    }

    /// The report so far.
    pub fn report(&self) -> &[u8]
        ensures { result.now ≡ self.now.world.report }
    {
        self.report.as_bytes()
    }

    /// Does the steps of an event, unless the world has halted.
    fn run(&mut self, event: &Event)
        requires { self.old.world.steps + steps_in event.now ≤ MOST_STEPS }
        ensures done { UnlessMemory self.new.world.halt (Does (by_end (F.says self.old.policy_a) (G.says self.old.policy_b)) event.now self.old.world self.new.world) }
        ensures halted { IsSome self.old.world.halt → self.new.world ≡ self.old.world }
        ensures steps { self.new.world.steps ≤ self.old.world.steps + steps_in event.now }
        ensures later { self.old.world.steps ≤ self.new.world.steps }
        ensures policy_a { self.new.policy_a ≡ self.old.policy_a }
        ensures policy_b { self.new.policy_b ≡ self.old.policy_b }
    {
        match settling(event) {
            Some(count) => self.settle(count),
            None => {
                let links = self.ends.a().station().links();
                self.take(Step::of(event, links));
            }
        }
    }

    /// Does that many deliveries, each of the front frame of the first queue that isn't empty.
    fn settle(&mut self, count: u16)
        requires { self.old.world.steps + count ≤ MOST_STEPS }
        ensures done { UnlessMemory self.new.world.halt (Settles (by_end (F.says self.old.policy_a) (G.says self.old.policy_b)) count self.old.world self.new.world) }
        ensures halted { IsSome self.old.world.halt → self.new.world ≡ self.old.world }
        ensures steps { self.new.world.steps ≤ self.old.world.steps + count }
        ensures later { self.old.world.steps ≤ self.new.world.steps }
        ensures policy_a { self.new.policy_a ≡ self.old.policy_a }
        ensures policy_b { self.new.policy_b ≡ self.old.policy_b }
    {
        for i in 0..count {
            self.deliver_next();
        }
    }

    /// Delivers the front frame of the first queue that isn't empty.
    fn deliver_next(&mut self)
        requires { self.old.world.steps + 1 ≤ MOST_STEPS }
        ensures done { UnlessMemory self.new.world.halt
            (DoesStep (by_end (F.says self.old.policy_a) (G.says self.old.policy_b)) (next_delivery self.old.world.ends) self.old.world self.new.world) }
        ensures halted { IsSome self.old.world.halt → self.new.world ≡ self.old.world }
        ensures steps { self.new.world.steps ≤ self.old.world.steps + 1 }
        ensures later { self.old.world.steps ≤ self.new.world.steps }
        ensures policy_a { self.new.policy_a ≡ self.old.policy_a }
        ensures policy_b { self.new.policy_b ≡ self.old.policy_b }
    {
        if self.halt.is_some() {
            return;
        }
        let next = self.ends.next_delivery();
        self.take(next);
    }

    /// Does a step, unless the world has halted.
    fn take(&mut self, step: Step)
        requires few { self.old.world.steps + 1 ≤ MOST_STEPS }
        requires linked { IsLinked (length self.old.world.ends.own.trunk.links) step }
        ensures done { UnlessMemory self.new.world.halt (DoesStep (by_end (F.says self.old.policy_a) (G.says self.old.policy_b)) step self.old.world self.new.world) }
        ensures halted { IsSome self.old.world.halt → self.new.world ≡ self.old.world }
        ensures steps { self.new.world.steps ≤ self.old.world.steps + 1 }
        ensures later { self.old.world.steps ≤ self.new.world.steps }
        ensures policy_a { self.new.policy_a ≡ self.old.policy_a }
        ensures policy_b { self.new.policy_b ≡ self.old.policy_b }
    {
        if self.halt.is_some() {
            return;
        }
        match go(&mut self.ends, &mut self.steps, &mut self.report, step) {
            Ok(()) => {}
            Err(fault) => self.halt = Some(fault),
        }
    }
}

/// Does a step, counts it and writes its report.
fn go<F: Policy, G: Policy>(
    ends: &mut TwoEnds<F, G>,
    steps: &mut u32,
    report: &mut String,
    step: Step,
) -> Result<(), WorldFault>
    requires sound { IsSound ends.old.ends steps.old }
    requires linked { IsLinked (length ends.old.ends.own.trunk.links) step }
    requires few { steps.old + 1 ≤ MOST_STEPS }
    ensures done { UnlessMemory (fault_in result) (DoesStep (by_end (F.says ends.old.policy_a) (G.says ends.old.policy_b)) step
        (world_of ends.old.ends steps.old (string_bytes report.old) None)
        (world_of ends.new.ends steps.new (string_bytes report.new) (fault_in result))) }
    ensures sound { OnOk result (IsSound ends.new.ends steps.new) }
    ensures steps { steps.new ≤ steps.old + 1 }
    ensures later { steps.old ≤ steps.new }
    ensures policy_a { ends.new.policy_a ≡ ends.old.policy_a }
    ensures policy_b { ends.new.policy_b ≡ ends.old.policy_b }
{
    let number = *steps + 1;
    let before = Ordinals::before(ends, step);
    let answer = match ends.does(step, number) {
        Ok(answer) => answer,
        Err(Memory) => return Err(WorldFault::Memory),
    };
    if let Some(fault) = wider_since(ends, step, &before) {
        return Err(WorldFault::Outstanding(fault));
    }
    match show(report, number, step, answer, ends) {
        Ok(()) => {}
        Err(Memory) => return Err(WorldFault::Memory),
    }
    *steps = number;
    Ok(())
}

/// Writes what is reported after the step of that number, in which that was answered to one who asked.
fn show<F: Policy, G: Policy>(
    report: &mut String,
    number: u32,
    step: Step,
    answer: Option<Answer>,
    ends: &TwoEnds<F, G>,
) -> Result<(), Memory>
    requires alike { length ends.now.ends.other.trunk.links ≡ length ends.now.ends.own.trunk.links }
    requires agreed { AgreeEverywhere ends.now.ends }
    ensures { OnOk result (Shows number step answer ends.now.ends (string_bytes report.old) (string_bytes report.new)) }
{
    match step {
        Step::Reports => write_show(report, number, ends.a().station(), ends.b().station()),
        Step::Asks(at, _, request) => match answer {
            Some(answer) => write_ask(report, number, at, request, answer),
            None => Ok(()),
        },
        _ => Ok(()),
    }
}
