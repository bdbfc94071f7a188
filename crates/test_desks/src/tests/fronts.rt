//! A picture whose writer fails once, at many places: what went out is the picture's
//! beginning. The wrong body drawn_on_after_a_failed_write, which closes the text, fails here.
use desk_pictures::Frame;
use desk_report::Spout;
use plan_table::Mode;
use single_runs::{Courses, run_draw};
use solver_check::{CheckFault, Problem};
use std::alloc::Global;
use std::io;
use std::process::Abort;
use std::sync::Wait;
use std::thread::Threads;

const MAP: &str = "type octile\nheight 1\nwidth 3\nmap\n...\n";

const PATHS: &str = "path 0 0,0 1,0\npath 1 2,0 1,0\n";

// How many bytes further each writer fails.
const STRIDE: usize = 61;

// Takes bytes until the room is used up; then one write takes none, and those behind it all.
#[derive(Drop)]
struct Failing {
    held: Vec<u8>,
    room: Option<usize>,
}

impl io::Write for Failing {
    fn write(&mut self, bytes: &[u8]) -> io::Result<usize> {
        let count = bytes.len().min(self.room.unwrap_or(usize::MAX));
        self.room = match self.room {
            Some(0) | None => None,
            Some(room) => Some(room - count),
        };
        self.held.extend_from_slice(&bytes[..count])?;
        Ok(count)
    }

    fn flush(&mut self) -> io::Result<()> {
        Ok(())
    }
}

// What a picture's writer has that fails behind so many bytes, and how the run ended.
fn drawn<R: Threads + Wait>(
    rt: &R,
    alloc: Global,
    room: Option<usize>,
) -> (Vec<u8>, Result<(), CheckFault>) {
    let problem = Problem {
        map: MAP.as_bytes(),
        scen: None,
        agents: None,
        mode: Mode::Stay,
    };
    let frame = Frame {
        at: None,
        shown: None,
        kinds: None,
    };
    let mut writer = Spout::new(Failing {
        held: Vec::new(alloc),
        room,
    });
    let paths = Courses::Solver(PATHS.as_bytes());
    let ended = run_draw(rt, alloc, problem, paths, &frame, 1, &mut writer);
    (writer.into_inner().held, ended)
}

fn each_front<R: Threads + Wait + Abort>(rt: &R, alloc: Global) {
    let (whole, ended) = drawn(rt, alloc, None);
    assert!(rt; ended.is_ok());
    for room in 0..whole.len() {
        if room % STRIDE != 0 {
            continue;
        }
        let (front, ended) = drawn(rt, alloc, Some(room));
        assert!(rt; matches!(ended, Err(CheckFault::WriteFailed)));
        assert!(rt; front.as_slice() == &whole.as_slice()[..room]);
    }
    drop(whole);
}

#[test]
fn front_of_a_picture_after_a_failed_write(rt: HostRuntime) {
    each_front(&rt, rt.alloc());
}
