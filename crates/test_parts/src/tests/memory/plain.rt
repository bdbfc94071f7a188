//! The plain programs, which go over all times and pairs.
use super::fleet_rows::RING;
use super::told::{are_told, is_told};
use super::trials::{Memory, Trial};
use desk_report::plain_report;
use mapf_rules::conflicts;
use plan_table::Mode;
use scene_edits::Scene;
use std::alloc::Global;
use std::process::Abort;
use test_support::scene;

const ROUND: [&str; 8] = [
    "agent 0 0,0 1,0",
    "path 0 0,0 1,0",
    "agent 1 1,0 1,1",
    "path 1 1,0 1,1",
    "agent 2 1,1 0,1",
    "path 2 1,1 0,1",
    "agent 3 0,1 0,0",
    "path 3 0,1 0,0",
];

// The conflicts of the scene, which are those of a ring.
fn found(rt: &impl Abort, alloc: Global, trial: &mut Trial, scene: &Scene) -> Option<()> {
    trial.leave(rt, Memory::Little);
    let found = conflicts(alloc, scene.plans(), Mode::Stay);
    let found = trial.met(rt, found)?;
    assert!(rt; are_told(rt, alloc, found, RING));
    Some(())
}

pub fn ring_told(rt: &impl Abort, alloc: Global, trial: &mut Trial) -> Option<()> {
    let scene = scene(alloc, 2, 2, &ROUND).expect(rt, "a scene");
    let answer = found(rt, alloc, trial, &scene);
    drop(scene);
    answer
}

const REST: [&str; 3] = ["agent 0 1,0 1,0", "agent 1 0,0 2,0", "path 1 0,0 1,0 2,0"];

const REST_TOLD: &[u8] = b"agents 2
agent 0 settle 0 goal yes bound 0 gap 0
agent 1 settle 2 goal yes bound 2 gap 0
conflicts 2
vertex 1 0 1 1,0
follow 0 1 0 1,0
blocked 0
sum 2
makespan 2
bounds 2
gap 0
end
";

// The report of the scene, which is that of a row.
fn told(rt: &impl Abort, alloc: Global, trial: &mut Trial, scene: &Scene) -> Option<()> {
    let bounds = [Some(0), Some(2)];
    trial.leave(rt, Memory::Little);
    let report = plain_report(alloc, scene.grid(), Mode::Stay, scene.plans(), &bounds);
    let report = trial.met(rt, report)?;
    assert!(rt; is_told(rt, alloc, &report, &[REST_TOLD]));
    drop(report);
    Some(())
}

pub fn meeting_told(rt: &impl Abort, alloc: Global, trial: &mut Trial) -> Option<()> {
    let scene = scene(alloc, 3, 1, &REST).expect(rt, "a scene");
    let answer = told(rt, alloc, trial, &scene);
    drop(scene);
    answer
}
