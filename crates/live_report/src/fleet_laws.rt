ghost use Rattle.live_report.specs.FleetLaws.{RoutesFixBooks};

/// A law: books of a fleet are books of every fleet that has the same route for each agent.
pub fn routes_fix_books()
    ensures { RoutesFixBooks }
{}
