//! Records of the index, counted one by one from the tracks.
use grid_cells::{Cell, Step};
use plan_table::Track;
use std::process::Abort;
use where_index::WhereIndex;

// Where the track's agent stands at the time, no later than its last index, and whether it rests there.
fn stand(track: Option<Track>, time: u32) -> Option<(Cell, bool)> {
    let track = track?;
    if time > track.plan.last() {
        return None;
    }
    let rests = time == track.plan.last() && !track.leaves;
    Some((track.plan.at(Step::new(time)), rests))
}

// The move of the track's agent in the step.
fn hop(track: Option<Track>, time: u32) -> Option<(Cell, Cell)> {
    let plan = track?.plan;
    let from = plan.at(Step::new(time));
    let to = plan.at(Step::new(time.saturating_add(1)));
    if from == to { None } else { Some((from, to)) }
}

// How many of the two records, which are of one time, the other track lacks.
fn many_apart<T: Copy + PartialEq>(old: Option<T>, new: Option<T>) -> u64 {
    if old == new {
        0
    } else {
        u64::from(old.is_some()) + u64::from(new.is_some())
    }
}

// How many records only one of the tracks has.
fn apart(old: Option<Track>, new: Option<Track>, end: u32) -> u64 {
    let mut count = 0u64;
    for time in 0..=end {
        let stands = many_apart(stand(old, time), stand(new, time));
        let hops = many_apart(hop(old, time), hop(new, time));
        count = count.saturating_add(stands).saturating_add(hops);
    }
    count
}

/// Looks at how many records the index has touched since `before`.
pub fn check_touched(
    rt: &impl Abort,
    index: &WhereIndex,
    before: u64,
    old: Option<Track>,
    new: Option<Track>,
) {
    let count = apart(old, new, index.horizon());
    assert!(rt; index.touched() == before.saturating_add(count));
}
