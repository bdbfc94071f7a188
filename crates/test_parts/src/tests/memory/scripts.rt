//! All scripts, each run over and over until each growth of its calls was refused once.
use super::edit_rows::{CUT, LISTS, SINCE};
use super::edits::{self, Row};
use super::fleet_rows::{
    CUT_TO_A_REST, EXCHANGED, ROUND, ROUND_AGAIN, SWAPPED, SWAPPED_FOR_LONG, TWO,
};
use super::fleets::{self, Turn};
use super::prices::{self, AIMED_AND_CLOSED, GOAL_CLOSED};
use super::trials::Trial;
use super::{fields, grids, maps, plain, scenarios, scenes};
use std::alloc::Global;
use std::process::Abort;

// A script, which is mostly named by its row.
#[derive(Clone, Copy)]
enum Script {
    Copies,
    CopyOfAScene,
    MapLetters,
    ScenarioLines,
    Edits(&'static [Row]),
    Fleet(&'static [Turn]),
    Prices(&'static [prices::Turn]),
    QueueOfThree,
    Corridor,
    GoalHeldTwice,
    RingByAllPairs,
    RestByAllPairs,
}

// How many calls of a script find little memory in turn, the script's names, and the script.
const SCRIPTS: &[(usize, &str, Script)] = &[
    (4, "equal_copies", Script::Copies),
    (1, "equal_copies of a scene", Script::CopyOfAScene),
    (7, "map_letters_and_header_faults", Script::MapLetters),
    (6, "scenario_lines_and_tasks", Script::ScenarioLines),
    (6, "since_of_a_path_that_goes_on", Script::Edits(SINCE)),
    (2, "tail_cut_to_a_rest", Script::Edits(CUT)),
    (2, "edits_in_a_row, and none of all", Script::Edits(LISTS)),
    (
        5,
        "index_of_two_agents, index_after_a_take",
        Script::Fleet(TWO),
    ),
    (1, "touched_by_put_and_swap", Script::Fleet(SWAPPED)),
    (2, "swap for more records", Script::Fleet(SWAPPED_FOR_LONG)),
    (3, "counts_of_a_swap", Script::Fleet(EXCHANGED)),
    (
        4,
        "tail_cut_to_a_rest in a ledger",
        Script::Fleet(CUT_TO_A_REST),
    ),
    (3, "ring_again_after_a_drop", Script::Fleet(ROUND_AGAIN)),
    (1, "ring_found_at_a_cell", Script::Fleet(ROUND)),
    (
        5,
        "costs_after_aim_and_flip, set_plan",
        Script::Prices(AIMED_AND_CLOSED),
    ),
    (2, "goal_cell_closed", Script::Prices(GOAL_CLOSED)),
    (1, "queue_of_three", Script::QueueOfThree),
    (1, "corridor_closed_and_opened", Script::Corridor),
    (1, "goal_held_twice_released_once", Script::GoalHeldTwice),
    (1, "ring_of_four by all pairs", Script::RingByAllPairs),
    (
        1,
        "meets_a_resting_agent by all pairs",
        Script::RestByAllPairs,
    ),
];

fn run(rt: &impl Abort, alloc: Global, trial: &mut Trial, script: Script) -> Option<()> {
    match script {
        Script::Copies => Some(grids::copies(rt, alloc, trial)),
        Script::CopyOfAScene => Some(scenes::copied(rt, alloc, trial)),
        Script::MapLetters => Some(maps::letters(rt, alloc, trial)),
        Script::ScenarioLines => Some(scenarios::tasks(rt, alloc, trial)),
        Script::Edits(rows) => Some(edits::run_all(rt, alloc, trial, rows)),
        Script::Fleet(turns) => fleets::run(rt, alloc, trial, turns),
        Script::Prices(turns) => prices::run(rt, alloc, trial, turns),
        Script::QueueOfThree => fields::three_cells(rt, alloc, trial),
        Script::Corridor => fields::corridor(rt, alloc, trial),
        Script::GoalHeldTwice => fields::held_twice(rt, alloc, trial),
        Script::RingByAllPairs => plain::ring_told(rt, alloc, trial),
        Script::RestByAllPairs => plain::meeting_told(rt, alloc, trial),
    }
}

// How often each call of each script was refused is printed.
#[test]
fn each_growth_is_refused_in_turn(rt: HostRuntime) {
    let mut trial = Trial::begin(&rt, rt.alloc());
    for (calls, name, script) in SCRIPTS {
        for _ in 0..100_000u32 {
            let _ = run(&rt, rt.alloc(), &mut trial, *script);
            if !trial.goes_on(&rt, *calls) {
                break;
            }
        }
        let refused = trial.over(&rt, *calls);
        println!(rt; "{name}: refused {refused:?}").expect(&rt, "print");
    }
    drop(trial);
}
