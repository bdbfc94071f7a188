ghost use Rattle.std.specs.Prelude.{◌≡◌, ◌≢◌, ◌↔◌, ℕ, ◌+◌, ◌<◌, None, IsTrue};
ghost use Rattle.plan_table.specs.Path.{last_index};
ghost use Rattle.plan_table.specs.Route.{position, route_of};
ghost use Rattle.conflict_ledger.specs.Spans.{AreApartAt, AreSameAt, Fits, IsIn};

use crate::sight::position_on;
use grid_cells::Step;
use plan_table::Track;

// Two tracks of an agent that end alike.
#[derive(Clone, Copy)]
pub(crate) struct Tracks<'a> {
    pub old: Track<'a>,
    pub new: Track<'a>,
}

// The times at which a change of one track can change entries: from one on; where the two tracks end
// alike, only those at which they are apart, or one step later.
#[derive(Clone, Copy)]
pub(crate) struct Span<'a> {
    pub from: u32,
    pub tracks: Option<Tracks<'a>>,
}

impl Tracks<'_> {
    // Whether the two tracks are in different places at the time.
    fn are_apart(&self, time: u32) -> bool
        ensures { IsTrue result ↔ AreApartAt (route_of self.now.old) (route_of self.now.new) time }
    {
        position_on(&self.old, time) != position_on(&self.new, time)
    }
}

impl<'a> Span<'a> {
    // All times.
    pub(crate) fn whole() -> Span<'a>
        ensures from { result.from ≡ 0 }
        ensures tracks { result.tracks ≡ None }
    {
        Span {
            from: 0,
            tracks: None,
        }
    }

    // The times that tell the two tracks apart, which are equal below `since`: from one step before
    // that, or before the earlier end, on, and only those at which they differ where both end alike.
    pub(crate) fn apart(old: Track<'a>, new: Track<'a>, since: u32) -> Span<'a>
        requires { (t : ℕ) → t < since → position (route_of old) t ≡ position (route_of new) t }
        ensures old { Fits result (last_index old.entry.plan.now) }
        ensures new { Fits result (last_index new.entry.plan.now) }
        ensures beside { (t : ℕ) → (IsIn result t → ⊥) → AreSameAt (route_of old.entry) (route_of new.entry) t }
    {
        let (last, end) = (old.plan.last(), new.plan.last());
        let from = since.min(last).min(end).saturating_sub(1);
        let cells = (old.plan.at(Step::new(last)), new.plan.at(Step::new(end)));
        let alike = last == end && cells.0 == cells.1 && old.leaves == new.leaves;
        let tracks = if alike {
            Some(Tracks { old, new })
        } else {
            None
        };
        Span { from, tracks }
    }

    // Whether the time is one of the span's.
    pub(crate) fn has(&self, time: u32) -> bool
        requires { time < u32.MAX }
        ensures { IsTrue result ↔ IsIn self.now time }
    {
        let apart = match &self.tracks {
            Some(tracks) => tracks.are_apart(time) || tracks.are_apart(time + 1),
            None => true,
        };
        self.from <= time && apart
    }
}
