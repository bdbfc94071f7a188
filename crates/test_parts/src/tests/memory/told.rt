//! Conflict entries by their text.
use desk_report::Report;
use grid_cells::List;
use mapf_rules::Conflict;
use std::alloc::Global;
use std::process::Abort;
use test_support::{conflicts_alone, text_of};

/// Whether the entries are written as those lines, of which each ends in LF.
pub fn are_told(rt: &impl Abort, alloc: Global, conflicts: List<Conflict>, lines: &[u8]) -> bool {
    let report = conflicts_alone(alloc, conflicts);
    let tail = b"blocked 0\nsum none\nmakespan none\nbounds none\ngap none\nend\n";
    let are_told = is_told(rt, alloc, &report, &[b"agents 0\n", lines, tail]);
    drop(report);
    are_told
}

/// Whether the report's text is that of the parts.
pub fn is_told(rt: &impl Abort, alloc: Global, report: &Report, parts: &[&[u8]]) -> bool {
    let mut wanted = Vec::new(alloc);
    for part in parts {
        wanted.extend_from_slice(part).expect(rt, "memory");
    }
    text_of(alloc, report).expect(rt, "memory") == wanted
}
