//! Sessions at the bounds of lines and bytes.
use super::build::limit;
use desk_core::{Desk, Scene};
use desk_report::{Source, Spout, Tap};
use desk_session::{Bounds, ServeFault, serve};
use std::alloc::Global;
use std::process::Abort;
use test_support::{Repeated, open_grid};

/// Four megabytes.
const BYTES: u64 = 4 << 20;

const WIDE: Bounds = Bounds {
    lines: 10,
    bytes: BYTES,
};

// How a session ends.
type Ended = Result<u32, ServeFault>;

const LINES: Ended = Err(ServeFault::TooManyLines);

const LONG: Ended = Err(ServeFault::TooManyBytes);

// A byte so many times, heard within those bounds with so many calls, ends the session so, and has
// that answer.
const BYTE_BY_BYTE: &[(u8, u64, Bounds, u64, Ended, &str)] = &[
    (b'#', u64::MAX, WIDE, BYTES + 1, LONG, ""),
    (b'x', u64::MAX, WIDE, BYTES + 1, LONG, ""),
    (b' ', u64::MAX, WIDE, BYTES + 1, LONG, ""),
    (b'x', BYTES + 1, WIDE, BYTES + 1, LONG, ""),
    (b'#', BYTES, WIDE, BYTES + 1, Ok(1), ""),
    (b'x', BYTES, WIDE, BYTES + 1, Ok(1), "bad 1 word\n"),
    (b' ', BYTES, WIDE, BYTES + 1, Ok(1), ""),
    (b'\n', u64::MAX, WIDE, 11, LINES, ""),
    (b'#', u64::MAX, SMALL, 11, LONG, ""),
    (b'\n', u64::MAX, FEW, 4, LINES, ""),
];

const SMALL: Bounds = Bounds {
    lines: 3,
    bytes: 10,
};

const FEW: Bounds = Bounds {
    lines: 3,
    bytes: 100,
};

// A text, heard within those bounds of lines and bytes, ends the session so, and has that answer.
const TEXTS: &[(&str, u32, u64, Ended, &str)] = &[
    ("", 0, 0, Ok(0), ""),
    ("\n", 0, 9, LINES, ""),
    ("\n", 9, 0, LONG, ""),
    ("\n\n", 2, 2, Ok(2), ""),
    ("\n\nx", 2, 2, LINES, ""),
    ("\n\nx", 3, 2, LONG, ""),
    ("\n\nx", 3, 3, Ok(3), "bad 3 word\n"),
    (
        "version\nversion\nversion\n",
        2,
        1_000,
        LINES,
        "version 0\nversion 0\n",
    ),
    ("x\ncancel", 2, 8, Ok(2), "bad 1 word\nbad 2 notbegun\n"),
    ("x\ncancel", 2, 7, LONG, "bad 1 word\n"),
    ("x\ncancel", 1, 9, LINES, "bad 1 word\n"),
];

// A session over an open map of one cell ends so, and has that answer.
fn is_served<R: Source>(
    rt: &impl Abort,
    alloc: Global,
    reader: &mut R,
    bounds: Bounds,
    ended: Ended,
    text: &str,
) {
    let grid = open_grid(alloc, 1, 1).expect(rt, "a map");
    let mut desk = Desk::open(alloc, Scene::bare(alloc, grid), limit(rt, 8));
    let mut writer = Spout::new(Vec::new(alloc));
    let found = serve(alloc, &mut desk, reader, &mut writer, bounds);
    drop(desk);
    let written: Vec<u8> = writer.into_inner();
    assert!(rt; found == ended && written.as_slice() == text.as_bytes());
    drop(written);
}

fn byte_by_byte(rt: &impl Abort, alloc: Global) {
    for (byte, left, bounds, calls, ended, text) in BYTE_BY_BYTE {
        let mut reader = Repeated::new(*byte, *left);
        is_served(rt, alloc, &mut reader, *bounds, *ended, text);
        assert!(rt; reader.calls() == *calls);
    }
}

#[test]
fn endless_readers_and_lines_at_the_bound_of_bytes(rt: HostRuntime) {
    byte_by_byte(&rt, rt.alloc());
}

fn texts(rt: &impl Abort, alloc: Global) {
    for (input, lines, bytes, ended, text) in TEXTS {
        let (lines, bytes) = (*lines, *bytes);
        let mut reader = Tap::new(input.as_bytes());
        is_served(
            rt,
            alloc,
            &mut reader,
            Bounds { lines, bytes },
            *ended,
            text,
        );
    }
}

#[test]
fn too_many_lines_and_texts_at_the_bounds(rt: HostRuntime) {
    texts(&rt, rt.alloc());
}
