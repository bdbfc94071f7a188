//! Each run that other programs call and this one doesn't, once to its end with ample memory. The wrong
//! body always_out_of_memory of a run, which gives up once its map is read, fails here.
use super::build::limit;
use desk_report::{Spout, Tap};
use desk_session::{Bounds, serve_with_map};
use plan_table::Mode;
use single_runs::run_serve;
use std::alloc::Global;
use std::process::Abort;

const MAP: &str = "type octile\nheight 1\nwidth 3\nmap\n...\n";

const TASK: &str = "version 1\n0 m 3 1 0 0 2 0 2\n";

const PATH: &str = "path 0 0,0 1,0 2,0\nsolves vertex\n";

const BOUNDS: Bounds = Bounds {
    lines: 10,
    bytes: 1_000,
};

// A session behind a map that puts an agent at (0,0), on its way to (2,0).
fn session_behind_a_map(rt: &impl Abort, alloc: Global) {
    let text = format!(in alloc; "{MAP}agent 0 0,0 2,0\n{PATH}").expect(rt, "memory");
    let mut reader = Tap::new(text.as_bytes());
    let mut writer = Spout::new(Vec::new(alloc));
    let (limit, mode) = (limit(rt, 8), Mode::Stay);
    let lines = serve_with_map(alloc, &mut reader, &mut writer, limit, mode, BOUNDS);
    let written: Vec<u8> = writer.into_inner();
    assert!(rt; matches!(lines, Ok(3)));
    assert!(rt; written.as_slice() == "version 1\nversion 2\nsolves yes\n".as_bytes());
    drop(written);
    drop(text);
}

// A session whose agent is that of a scenario; its map is handed in, or comes first from the reader.
fn session_of_a_scenario(rt: &impl Abort, alloc: Global, map: Option<&[u8]>, first: &str) {
    let text = format!(in alloc; "{first}{PATH}").expect(rt, "memory");
    let mut reader = Tap::new(text.as_bytes());
    let mut writer = Spout::new(Vec::new(alloc));
    let (scen, limit, mode) = (Some(TASK.as_bytes()), limit(rt, 8), Mode::Stay);
    let lines = run_serve(alloc, map, scen, 1, limit, mode, &mut reader, &mut writer);
    let written: Vec<u8> = writer.into_inner();
    assert!(rt; matches!(lines, Ok(2)));
    assert!(rt; written.as_slice() == "version 1\nsolves yes\n".as_bytes());
    drop(written);
    drop(text);
}

#[test]
fn session_served_behind_its_map(rt: HostRuntime) {
    session_behind_a_map(&rt, rt.alloc());
}

#[test]
fn session_served_over_a_scenario(rt: HostRuntime) {
    let alloc = rt.alloc();
    session_of_a_scenario(&rt, alloc, Some(MAP.as_bytes()), "");
    session_of_a_scenario(&rt, alloc, None, MAP);
}
