//! Where a line of a journal's heading leads.
ghost use Rattle.std.specs.Prelude.{◌≡◌, []};
ghost use Rattle.journal_text.specs.Places.{LeadsTo};

use crate::places::{Heading, Place};
use grid_cells::List;
use plan_table::Mode;
use std::alloc::Global;

// Behind a heading.
fn headed(alloc: Global, heading: Heading) -> Place
    ensures { result ≡ Place.Between heading [] }
{
    Place::Between {
        heading,
        entries: List::new(Vec::new(alloc)),
    }
}

// From the start.
pub(crate) fn start(alloc: Global, line: &[u8]) -> Option<Place>
    ensures { LeadsTo Place.Start line.now result }
{
    if line == b"journal 1".as_slice() {
        Some(headed(alloc, Heading::First))
    } else if line == b"journal 2".as_slice() {
        Some(Place::Versioned)
    } else {
        None
    }
}

// From behind `journal 2`.
pub(crate) fn versioned(alloc: Global, line: &[u8]) -> Option<Place>
    ensures { LeadsTo Place.Versioned line.now result }
{
    if line == b"mode stay".as_slice() {
        Some(headed(alloc, Heading::Second(Mode::Stay)))
    } else if line == b"mode disappear".as_slice() {
        Some(headed(alloc, Heading::Second(Mode::Disappear)))
    } else {
        None
    }
}
