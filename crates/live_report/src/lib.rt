//! The books of a desk: what is kept beside a scene, so that a commit and a reading cost what changed.
//!
//! `fleet` keeps the index and the ledger of conflicts together, `prices` the ledger of costs and the
//! goals that agents aim at (`aims`, `goals`); `books` has both. `follow` first gives the books the
//! cells that changed (`flip`), for each of which the index tells the ledger of costs who comes through
//! it (`price_flips`), and then goes agent by agent (`catch_up`): a `Former` tells the row that an
//! agent had, the scene has the row that it has now, and `changing` lets it come, go or change.
//! `reports` makes the report from both ledgers, the conflict list and the agents' lines (`told_lines`,
//! `totals`, `visitors`), and `judging` tells without a list whether it solves. The `lines` are as if
//! no visit were blocked. From a report on they stand in the books (`reporting`), and go along with
//! each agent's row (`standing_lines`) until a cell flips or they find no memory; the next report makes
//! them anew from the fields (`bounds`). What a commit changes in the report is told as the books follow
//! it (`turnovers`): conflicts are noted as they come and go, lines and visits are looked at before and
//! after (`looks`), of the agents whose rows changed, and of all where a cell flips. `histories` keeps
//! that by version, and `changes` lists it beside the totals: what changed up to the report. The lemma
//! of the loop (`proofs/Leaving.antt`) says that the rows which the books stand for are the new ones but
//! for those of the agents still to come; that of histories (`proofs/Recounting.antt`) says that one
//! which recounts the reports of its versions still does so at the next.
#![tactic(auto)]

mod aims;
mod books;
mod bounds;
mod builds;
mod changes;
mod changing;
mod cuts;
mod cutting;
mod fleet;
mod fleet_laws;
mod following;
mod former;
mod goals;
mod histories;
mod judging;
mod lines;
mod looks;
mod price_flips;
mod price_laws;
mod prices;
mod reporting;
mod reports;
mod solving;
mod standing_lines;
mod told_lines;
mod totals;
mod turnovers;
mod visitors;

pub use books::Books;
pub use builds::BuildCount;
pub use fleet::FleetBooks;
pub use fleet_laws::routes_fix_books;
pub use histories::History;
pub use judging::quick_solves;
pub use lines::Lines;
pub use price_laws::same_rows_same_books;
pub use prices::PriceBooks;
pub use reports::quick_report;
pub use turnovers::Turnover;
