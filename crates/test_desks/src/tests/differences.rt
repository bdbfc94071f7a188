//! The difference of two reports, told plainly.
use desk_report::{AgentLine, Changes, Report};
use grid_cells::Agent;

fn has<T: PartialEq>(list: &[T], item: &T) -> bool {
    list.iter().any(|other| *other == *item)
}

// Whether the list is what these have and those haven't, in the order of these.
fn are_only<T: PartialEq>(list: &[T], these: &[T], those: &[T]) -> bool {
    let (mut rest, mut same) = (list, true);
    for item in these {
        if has(those, item) {
            continue;
        }
        match rest.split_first() {
            Some((first, later)) => {
                same = same && *first == *item;
                rest = later;
            }
            None => same = false,
        }
    }
    same && rest.is_empty()
}

fn is_in(lines: &[AgentLine], agent: Agent) -> bool {
    lines.iter().any(|line| line.agent == agent)
}

// Whether the agents are those of these lines that have none among those.
fn are_gone(agents: &[Agent], these: &[AgentLine], those: &[AgentLine]) -> bool {
    let (mut rest, mut same) = (agents, true);
    for line in these {
        if is_in(those, line.agent) {
            continue;
        }
        match rest.split_first() {
            Some((first, later)) => {
                same = same && *first == line.agent;
                rest = later;
            }
            None => same = false,
        }
    }
    same && rest.is_empty()
}

fn have_come(came: &Report, old: &Report, new: &Report) -> bool {
    are_only(
        came.conflicts.items(),
        new.conflicts.items(),
        old.conflicts.items(),
    ) && are_only(came.visits.items(), new.visits.items(), old.visits.items())
        && are_only(came.lines.items(), new.lines.items(), old.lines.items())
        && came.sum == new.sum
        && came.makespan == new.makespan
        && came.bounds == new.bounds
        && came.total_gap == new.total_gap
}

/// Whether that is what changed from the old report to the new one.
pub fn are_differences(changes: &Changes, old: &Report, new: &Report) -> bool {
    changes.agents == new.lines.items().len()
        && changes.conflicts == new.conflicts.items().len()
        && changes.blocked == new.visits.items().len()
        && are_gone(
            changes.gone_agents.items(),
            old.lines.items(),
            new.lines.items(),
        )
        && are_only(
            changes.gone_conflicts.items(),
            old.conflicts.items(),
            new.conflicts.items(),
        )
        && are_only(
            changes.gone_visits.items(),
            old.visits.items(),
            new.visits.items(),
        )
        && have_come(&changes.came, old, new)
}
