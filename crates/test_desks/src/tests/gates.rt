//! Audits whose pieces wait for one another, or are counted; a drill whose scripts wait for one another.
use desk_audit::{Gate, audit};
use desk_report::Spout;
use plan_table::Mode;
use shared_runs::run_drill;
use std::alloc::Global;
use std::mem::forget;
use std::process::Abort;
use std::sync::Wait;
use std::thread::Threads;
use test_support::{Meeting, Turnstile, scene};

// How many agents and conflicts the report of an audit has, of the scene of the lines on an open map of
// 2 x 1 cells.
fn audited<R: Threads + Wait + Abort, G: Gate>(
    rt: &R,
    alloc: Global,
    lines: &[&str],
    workers: u32,
    gate: &G,
) -> (usize, usize) {
    let scene = scene(alloc, 2, 1, lines).expect(rt, "a scene");
    let answer = audit(rt, alloc, &scene, workers, gate);
    drop(scene);
    let report = answer.expect(rt, "a report");
    let counts = (report.lines.items().len(), report.conflicts.items().len());
    drop(report);
    counts
}

fn run_at_once<R: Threads + Wait + Abort>(rt: &R, alloc: Global) {
    let lines = [
        "agent 0 0,0 1,0",
        "agent 1 1,0 0,0",
        "path 0 0,0 1,0",
        "path 1 1,0 0,0",
    ];
    let gate = Meeting::new();
    let counts = audited(rt, alloc, &lines, 2, &gate);
    assert!(rt; counts == (2, 3) && gate.is_met());
    forget(gate);
}

// The wrong body audit_on_one_thread misses.
#[test]
fn pieces_run_at_once(rt: HostRuntime) {
    run_at_once(&rt, rt.alloc());
}

fn begin_too<R: Threads + Wait + Abort>(rt: &R, alloc: Global) {
    let gate = Turnstile::new();
    let counts = audited(rt, alloc, &["agent 0 0,0 0,0"], 64, &gate);
    assert!(rt; counts == (1, 0) && gate.begun() == 64);
    forget(gate);
}

#[test]
fn empty_pieces_begin_too(rt: HostRuntime) {
    begin_too(&rt, rt.alloc());
}

const MAP: &[u8] = b"type octile\nheight 1\nwidth 2\nmap\n..\n";

const RESTING: &[u8] = b"version 2
agents 2
agent 0 settle 0 goal yes bound 0 gap 0
agent 1 settle 0 goal yes bound 0 gap 0
conflicts 0
blocked 0
sum 0
makespan 0
bounds 0
gap 0
end
audit same
";

// The scripts, in memory of their own.
fn scripts(rt: &impl Abort, alloc: Global, texts: &[&str]) -> Vec<Vec<u8>> {
    let mut scripts = Vec::new(alloc);
    for text in texts {
        let script = Vec::from_slice(alloc, text.as_bytes()).expect(rt, "memory");
        scripts.push(script).expect(rt, "memory");
    }
    scripts
}

fn drill_at_once<R: Threads + Wait + Abort + Sync>(rt: &R, alloc: Global) {
    let scripts = scripts(rt, alloc, &["agent 0 0,0 0,0\n", "agent 1 1,0 1,0\n"]);
    let gate = Meeting::new();
    let mut writer = Spout::new(Vec::new(alloc));
    let same = run_drill(
        rt,
        alloc,
        MAP,
        None,
        0,
        Mode::Stay,
        2,
        scripts,
        &gate,
        &mut writer,
    );
    let written: Vec<u8> = writer.into_inner();
    assert!(rt; matches!(same, Ok(true)) && gate.is_met());
    assert!(rt; written.as_slice() == RESTING);
    drop(written);
    forget(gate);
}

// The wrong body drill_one_after_another misses, and so does drill_past_its_gate, which tells no script's
// beginning; the wrong body always_out_of_memory has no report.
#[test]
fn scripts_meet_at_their_gate(rt: HostRuntime) {
    drill_at_once(&rt, rt.alloc());
}
