ghost use Rattle.goal_fields.specs.Laws.{OneChangeCount};

/// Two maps and a goal have one change count.
pub fn one_change_count()
    ensures { OneChangeCount }
{}
