//! Reports, and their texts.
use desk_report::{Report, Spout, write_report};
use grid_cells::List;
use mapf_rules::{Conflict, Kind};
use std::alloc::Global;

/// The kinds of conflicts, in the order of a report's entries.
pub const KINDS: [Kind; 6] = [
    Kind::Vertex,
    Kind::Parked,
    Kind::Edge,
    Kind::Following,
    Kind::Swapping,
    Kind::Cycle,
];

/// The report of nobody that has those conflicts.
pub fn conflicts_alone(alloc: Global, conflicts: List<Conflict>) -> Report {
    Report {
        conflicts,
        visits: List::new(Vec::new(alloc)),
        lines: List::new(Vec::new(alloc)),
        sum: None,
        makespan: None,
        bounds: None,
        total_gap: None,
    }
}

/// The report's text. None stands for want of memory.
pub fn text_of(alloc: Global, report: &Report) -> Option<Vec<u8>> {
    let mut sink = Spout::new(Vec::new(alloc));
    match write_report(report, &mut sink) {
        Ok(()) => Some(sink.into_inner()),
        Err(_) => None,
    }
}
