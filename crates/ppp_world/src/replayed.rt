//! The replay of a script.

ghost use Rattle.std.specs.Prelude.{◌≡◌, ◌+◌, ◌≤◌, None, IsSome, IfOk};
ghost use Rattle.ppp_conf.specs.Config.{config_seen};
ghost use Rattle.ppp_script.specs.declared.script.TheConstants.{MOST_STEPS};
ghost use Rattle.ppp_world.specs.Refusal.{refusal_in};
ghost use Rattle.ppp_world.specs.Replay.{IsReplay};
ghost use Rattle.ppp_station.specs.Shipped.{IsShippedAs};

use crate::refusal::Refusal;
use crate::world::World;
use crate::world_fault::WorldFault;
use ppp_conf::Config;
use ppp_memory::Memory;
use ppp_script::{Event, Script};
use ppp_station::{CallAsk, Policy};
use std::alloc::Global;

/// What a replay comes to: the report of the steps that were done, and the first step that is refused, if there is one.
#[derive(Drop)]
pub struct Replayed {
    /// The report of the steps that were done.
    pub report: Vec<u8>,
    /// The step that was refused.
    pub refused: Option<Refusal>,
}

/// Replays a script with these settings, up to the first step that is refused. Each end's policy lets its peer have another link
/// exactly where that is no faster than the settings' `max_speed`. In every state of its run two Opened ends
/// of a protocol agree, on each link.
pub fn replay(alloc: Global, config: &Config, script: &Script<Event>) -> Result<Replayed, Memory>
    ensures { IfOk result
        (λ r. IsReplay (config_seen config.now) script.now r.report.items r.refused) }
{
    let (speed_a, speed_b) = (config.a.max_speed, config.b.max_speed);
    replay_with(
        alloc,
        config,
        script,
        |call: &CallAsk| call.speed <= speed_a,
        |call: &CallAsk| call.speed <= speed_b,
    )
}

/// Replays a script with these policies, which are those that come with the program.
fn replay_with<F: Policy + Drop, G: Policy + Drop>(
    alloc: Global,
    config: &Config,
    script: &Script<Event>,
    policy_a: F,
    policy_b: G,
) -> Result<Replayed, Memory>
    requires a { F.may policy_a }
    requires b { G.may policy_b }
    requires shipped_a { IsShippedAs (F.says policy_a) config.now.a.max_speed }
    requires shipped_b { IsShippedAs (G.says policy_b) config.now.b.max_speed }
    ensures { IfOk result
        (λ r. IsReplay (config_seen config.now) script.now r.report.items r.refused) }
{
    let mut world = World::new(alloc, config, policy_a, policy_b)?;
    for i in 0..script.count() {
        match world.step(script.at(i)) {
            Ok(()) => {}
            Err(fault) => return stopped(world, fault),
        }
    }
    Ok(Replayed {
        report: world.into_report(),
        refused: None,
    })
}

/// What a replay comes to that a world ended by refusing a step.
fn stopped<F: Policy + Drop, G: Policy + Drop>(
    world: World<F, G>,
    fault: WorldFault,
) -> Result<Replayed, Memory>
    requires { world.world.steps ≤ MOST_STEPS }
    ensures report { IfOk result (λ replayed. replayed.report.items ≡ world.world.report) }
    ensures refused { IfOk result (λ r. r.refused ≡ refusal_in (world.world.steps + 1) fault) }
    ensures some { IfOk result (λ replayed. IsSome replayed.refused) }
{
    let step = world.steps() + 1;
    match fault {
        WorldFault::Memory => Err(Memory),
        WorldFault::Outstanding(fault) => Ok(Replayed {
            report: world.into_report(),
            refused: Some(Refusal { step, fault }),
        }),
    }
}
