ghost use Rattle.bench_reader.specs.Laws.{OneMapAnswer, OneScenAnswer};

/// A text has one answer of `read_map`, its grid or its first fault, but for want of memory.
pub fn one_map_answer()
    ensures { OneMapAnswer }
{}

/// A text has one answer of `read_scen`, its tasks or its first fault, but for want of memory.
pub fn one_scen_answer()
    ensures { OneScenAnswer }
{}
