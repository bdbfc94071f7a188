ghost use Rattle.desk_shared.specs.Laws.{AloneFindsWhatItSaw, OnePlannerFindsWhatItSaw};

/// A pass that has each number of the desk, since no other pass was split off or all were joined
/// into it, finds the journal that it has seen.
pub fn alone_finds_what_it_saw()
    ensures { AloneFindsWhatItSaw }
{}

/// On a desk that was shared for one planner the pass finds the journal that it has seen.
pub fn one_planner_finds_what_it_saw()
    ensures { OnePlannerFindsWhatItSaw }
{}
