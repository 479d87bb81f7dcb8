//! Worlds in which events were done.

ghost use Rattle.std.specs.Prelude.{◌≡◌, OnOk, IfOk, None};
ghost use Rattle.ppp_world.specs.Says.{by_end};
ghost use Rattle.ppp_world.specs.World.{Does};

use ppp_conf::read_config;
use ppp_script::{Event, read_script, steps_of};
use ppp_station::Policy;
use ppp_world::World;
use std::alloc::Global;

/// The most steps that a case's world has done before an event.
const MOST_BEFORE: u32 = 90_000;

/// The most steps of such an event.
const MOST_OF_EVENT: u32 = 1_000;

/// The most octets of a case's lines.
const MOST_LINES: usize = 100_000;

/// Why a case's world can't be had.
#[derive(Clone, Copy, Debug, PartialEq, Eq)]
pub enum Undone {
    /// The settings can't be read.
    Settings,
    /// The lines can't be read.
    Lines,
    /// There is no memory for a world.
    Memory,
    /// A step was refused, or there are too many.
    Step,
}

/// Does the steps of an event. Undone comes where the world refuses one of them, or has done more than 90,000 before; an event
/// has at most 1,000.
pub fn step<F: Policy, G: Policy>(world: &mut World<F, G>, event: &Event) -> Result<(), Undone>
    ensures going { OnOk result (world.new.world.halt ≡ None) }
    ensures done { OnOk result (Does (by_end (F.says world.old.policy_a) (G.says world.old.policy_b))
        event.now world.old.world world.new.world) }
{
    if world.steps() > MOST_BEFORE || steps_of(event) > MOST_OF_EVENT {
        return Err(Undone::Step);
    }
    match world.step(event) {
        Ok(()) => Ok(()),
        Err(_) => Err(Undone::Step),
    }
}

/// A world of settings, with the policies of end a and of end b, in which these lines were done, and then the states reported.
pub fn shown_behind<F: Policy + Drop, G: Policy + Drop>(
    alloc: Global,
    settings: &str,
    lines: &str,
    policies: (F, G),
) -> Result<World<F, G>, Undone>
    requires a { F.may policies.0 }
    requires b { G.may policies.1 }
    ensures { IfOk result (λ world. world.world.halt ≡ None) }
{
    if lines.len() > MOST_LINES {
        return Err(Undone::Lines);
    }
    let Ok(config) = read_config(alloc, settings.as_bytes()) else {
        return Err(Undone::Settings);
    };
    let Ok(script) = read_script(alloc, lines.as_bytes(), config.links) else {
        return Err(Undone::Lines);
    };
    let (policy_a, policy_b) = policies;
    let Ok(mut world) = World::new(alloc, &config, policy_a, policy_b) else {
        return Err(Undone::Memory);
    };
    for i in 0..script.count() {
        step(&mut world, script.at(i))?;
    }
    step(&mut world, &Event::Show)?;
    Ok(world)
}
