ghost use Rattle.where_index.specs.Laws.{OneFleet, RecordsAreCounted};

/// What an index keeps fixes the fleet that it stands for, and so each of its answers.
pub fn one_fleet()
    ensures { OneFleet }
{}

/// The number by which `touched` rises is that of the records that exactly one of two tracks has.
pub fn records_are_counted()
    ensures { RecordsAreCounted }
{}
