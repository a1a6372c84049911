//! The live run of an input, from its set-up over its workers and hub to what came of it.

ghost use Rattle.std.specs.Prelude.{ℕ, ◌≡◌, ◌≤◌, [], false, length, map, vec_capacity};
ghost use Rattle.tk_frames.specs.Spelling.{IsVersion};
ghost use Rattle.tk_input.specs.Files.{HasRisen};
ghost use Rattle.tk_journal.specs.Legal.{opened, start as begun_by};
ghost use Rattle.tk_load.specs.Whole.{AreAgreed};
ghost use Rattle.tk_live.specs.Hosting.{CanHost};
ghost use Rattle.tk_live.specs.Left.{ConcludesLeft, TellsOdd};
ghost use Rattle.tk_live.specs.Lived.{AreOfInput, EndsOver};
ghost use Rattle.tk_live.specs.Made.{all_planned};
ghost use Rattle.tk_live.specs.Parting.{faults_of};
ghost use Rattle.tk_live.specs.Slots.{berth_made};
ghost use Rattle.tk_load.specs.Surroundings.{faults_told, output_by};
ghost use Rattle.tk_load.specs.declared.status.Status.TheVariants.{LinkFault as Unlinked};

use crate::ending::{is_odd, unjoined};
use crate::faults::{has_risen, of_net};
use crate::joining::join_ends;
use crate::left::Left;
use crate::outcome::LiveOutcome;
use crate::plan::Plan;
use crate::playing::play;
use crate::returning::{give_back, part};
use crate::stage::{Stage, make_stage};
use std::alloc::Global;
use std::marker::Sync;
use std::sync::Wait;
use std::thread::Threads;
use tk_input::Sink;
use tk_load::{Input, Status};
use tk_serve::Gate;
use tk_story::Ends;
use tk_wire::Net;

/// Concludes by how the hub and the workers ended, where that tells a fault, and else by the ends, which are then joined.
fn conclude<N: Net, O: Sink>(
    alloc: Global,
    plan: Plan,
    left: Left,
    faults: u64,
    net: &N,
    out: &mut O,
) -> LiveOutcome
    requires run { AreOfInput plan.input left.ends }
    requires odd { TellsOdd left }
    ensures concludes { ConcludesLeft plan.input plan.from left (output_by O.Sink out.old out.new) result }
    ensures failed { result.status ≡ Unlinked → HasRisen faults (N.state net.now).faults }
    ensures counted { (was : ℕ) → O.fault_count out.old ≡ faults_of left.parting was
        → O.fault_count out.new ≡ faults_told result.status was }
{
    let Left { parting, why, ends } = left;
    let odd = is_odd(&ends.coordinator, ends.monitors.as_slice());
    let risen = has_risen(faults, net.faults());
    match unjoined(parting, why, odd, risen) {
        Some(status) => LiveOutcome::kept(status, ends),
        None => {
            let Plan { input, from, .. } = plan;
            let Input { settings, logs, .. } = input;
            join_ends(alloc, settings, logs, from, ends, out)
        }
    }
}

/// Runs what was made: the workers and the hub beside them; then gives back the links and concludes.
fn run_stage<R: Threads + Wait + Sync, N: Net, G: Gate + Sync, O: Sink>(
    rt: &R,
    alloc: Global,
    plan: Plan,
    stage: Stage<N::Link, N::Rest, N::Bell>,
    faults: u64,
    gate: &G,
    net: &mut N,
    out: &mut O,
) -> LiveOutcome
    requires hub { CanHost stage.hub (N.state net.old) plan.input.names }
    requires settings { stage.hub.coordinator.settings ≡ plan.input.settings }
    requires begins { stage.hub.coordinator.journal ≡ opened (begun_by plan.input.settings) }
    requires made { map berth_made stage.crew.berths.items ≡ all_planned plan }
    requires empty { stage.ends.items ≡ [] }
    requires room { length stage.crew.berths.items ≤ vec_capacity stage.ends }
    ensures ends { EndsOver plan.input plan.version (output_by O.Sink out.old out.new)
        (N.state net.old) (N.state net.new) result }
    ensures failed { result.status ≡ Unlinked → HasRisen faults (N.state net.new).faults }
    ensures counted { O.fault_count out.new ≡ faults_told result.status (O.fault_count out.old) }
{
    let Stage { hub, crew, ends } = stage;
    let (hub, parting, workers) = play(rt, crew, hub, &plan.input.names, gate, net, out);
    let (coordinator, wires) = hub.into_end();
    give_back(net, wires);
    let (monitors, why) = part(net, workers, ends);
    let ends = Ends {
        coordinator,
        monitors,
    };
    let left = Left { parting, why, ends };
    conclude(alloc, plan, left, faults, net, out)
}

/// Runs an input live, in frames of a version: a worker for each monitor with its feeders, and the coordinator here, over
/// the links of a net. It may wait, and what it promises holds if it returns.
pub fn live_over<R: Threads + Wait + Sync, N: Net, G: Gate + Sync, O: Sink>(
    rt: &R,
    alloc: Global,
    input: Input,
    version: u8,
    net: &mut N,
    run: u64,
    gate: &G,
    out: &mut O,
) -> LiveOutcome
    requires agreed { AreAgreed input.names input.settings input.logs }
    requires version { IsVersion version }
    requires listens { (N.state net.old).listens ≡ false }
    requires links { (N.state net.old).links ≡ 0 }
    // Done tells a story that is sound, of this input, whose events it runs; its text is written, and its bytes came over
    // the links. Any other status leaves the story or the ends, and a front of what is written of them.
    ensures ends { EndsOver input version (output_by O.Sink out.old out.new) (N.state net.old) (N.state net.new) result }
    // A failed link has its cause, and a failed write is told just where there is one.
    ensures failed { result.status ≡ Unlinked → HasRisen (N.state net.old).faults (N.state net.new).faults }
    ensures counted { O.fault_count out.new ≡ faults_told result.status (O.fault_count out.old) }
{
    let faults = net.faults();
    let Ok(plan) = Plan::new(alloc, input, version, run) else {
        return LiveOutcome::unstarted(Status::NoMemory);
    };
    match make_stage(alloc, &plan, net) {
        Ok(stage) => run_stage(rt, alloc, plan, stage, faults, gate, net, out),
        Err(fault) => {
            drop(plan);
            LiveOutcome::unstarted(of_net(fault, has_risen(faults, net.faults())))
        }
    }
}
