ghost use Rattle.live_report.specs.PriceLaws.{SameRowsSameBooks};

/// A law: books of rows are books of any rows that are the same for each agent.
pub fn same_rows_same_books()
    ensures { SameRowsSameBooks }
{}
