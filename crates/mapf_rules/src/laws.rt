ghost use Rattle.mapf_rules.specs.Laws.{EntriesCompareAsListed, KindsAreToldApart, OneConflictList, MeetingsAreTold, SwapIsTwoFollowings};
ghost use Rattle.mapf_rules.specs.Laws.{NamedAgentsAreThere, SettlesAtLast, OneVisitList, OneSumAndMakespan};

/// A law: entries compare by the order of their declaration as they are listed.
pub fn entries_compare_as_listed()
    ensures { EntriesCompareAsListed }
{}

/// A law: kinds are equal, as the program compares them, exactly where they are one.
pub fn kinds_are_told_apart()
    ensures { KindsAreToldApart }
{}

/// A law: a fleet has at most one conflict list.
pub fn one_conflict_list()
    ensures { OneConflictList }
{}

/// A law: two agents meet exactly where a Vertex entry stands, or a Parked entry from then or before.
pub fn meetings_are_told()
    ensures { MeetingsAreTold }
{}

/// A law: a swap is two followings.
pub fn swap_is_two_followings()
    ensures { SwapIsTwoFollowings }
{}

/// A law: each agent that an entry of a step names has positions at its start and at its end.
#[tactic(auto, using(crate::proofs::LawsHold::named))]
pub fn named_agents_are_there()
    ensures { NamedAgentsAreThere }
{}

/// A law: a path with no wait at its end settles at its last index, and at no other time.
#[tactic(auto, using(crate::proofs::Settling::settles_law))]
pub fn settles_at_last()
    ensures { SettlesAtLast }
{}

/// A law: a map and a table have at most one list of blocked visits.
pub fn one_visit_list()
    ensures { OneVisitList }
{}

/// A law: a table has at most one sum of costs and one makespan.
#[tactic(auto, using(crate::proofs::Settling::totals_law))]
pub fn one_sum_and_makespan()
    ensures { OneSumAndMakespan }
{}
