ghost use Rattle.std.specs.Prelude.{◌↔◌, IsTrue};
ghost use Rattle.grid_cells.specs.Grid.{Chart};
ghost use Rattle.plan_table.specs.Route.{tracks_of};
ghost use Rattle.plan_table.specs.declared.tracks.Mode.{Mode};
ghost use Rattle.conflict_ledger.specs.Kept.{HasEntries};
ghost use Rattle.mapf_rules.specs.ConflictList.{IsListed};
ghost use Rattle.cost_ledger.specs.Ledger.{StandsForMap};
ghost use Rattle.goal_fields.specs.Held.{StandFor};
ghost use Rattle.desk_report.specs.Solves.{IsVerdict};
ghost use Rattle.live_report.specs.Asked.{HasAsked, HasAnyAsked};
ghost use Rattle.live_report.specs.Rows.{HaveFields, HavePathsOn};

use conflict_ledger::ConflictLedger;
use cost_ledger::CostLedger;
use desk_report::Kinds;
use goal_fields::Fields;
use mapf_rules::Kind;

/// Whether the plans solve by those kinds: what their report says, without its lists. No agent, entry
/// or visit is looked at by itself.
pub fn quick_solves(
    conflicts: &ConflictLedger,
    costs: &CostLedger,
    fields: &Fields,
    kinds: Kinds,
) -> bool
    ensures { (grid : Chart) (mode : Mode) →
        HasEntries conflicts.now (tracks_of mode costs.now.rows)
        → StandsForMap costs.now grid
        → StandFor grid fields.now.fields
        → HaveFields costs.now.rows fields.now.fields
        → HavePathsOn grid costs.now.rows
        → IsVerdict grid mode costs.now.rows kinds result }
{
    let _goals = fields.count();
    let unfinished = costs.unfinished();
    let visits = costs.visits();
    let named = has_named(conflicts, kinds);
    if unfinished == 0 && visits == 0 {
        !named
    } else {
        false
    }
}

// Whether the ledger has an entry of a kind that is asked about.
fn has_named(conflicts: &ConflictLedger, kinds: Kinds) -> bool
    ensures named { IsTrue result ↔ HasAnyAsked kinds conflicts.now }
    ensures once { IsListed conflicts.now }
{
    has_asked(conflicts, kinds, Kind::Vertex)
        || has_asked(conflicts, kinds, Kind::Parked)
        || has_asked(conflicts, kinds, Kind::Edge)
        || has_asked(conflicts, kinds, Kind::Following)
        || has_asked(conflicts, kinds, Kind::Swapping)
        || has_asked(conflicts, kinds, Kind::Cycle)
}

// Whether the kind is asked about, and the ledger has an entry of it.
fn has_asked(conflicts: &ConflictLedger, kinds: Kinds, kind: Kind) -> bool
    ensures asked { IsTrue result ↔ HasAsked kinds kind conflicts.now }
    ensures once { IsListed conflicts.now }
{
    let has = conflicts.has(kind);
    has && kinds.names(kind)
}
