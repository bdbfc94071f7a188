//! What a desk does with a commit.
ghost use Rattle.std.specs.Prelude.{IfSome, IfNone, ◌≡◌};
ghost use Rattle.scene_edits.specs.Scene.{SceneState};
ghost use Rattle.scene_edits.specs.ChangedBy.{ChangedBy};
ghost use Rattle.desk_commits.specs.Commits.{IsCurrent, Refuses, Committed};
ghost use Rattle.desk_core.specs.Kept.{WhereBooksStand};

use crate::desks::Desk;
use crate::recording::recorded;
use desk_commits::{Commit, Refusal, Stamps, first_stale, with_entry};
use live_report::Books;
use scene_edits::{Change, EditsFault, Scene};
use std::mem::replace;

impl Desk {
    /// Applies the edits of the commit, all or none, and answers the new version.
    ///
    /// # Errors
    ///
    /// The first reason to refuse the commit, and the commit as it was handed in. The scene and
    /// the journal are then as they were.
    pub fn commit(&mut self, commit: Commit) -> Result<u64, (Refusal, Commit)>
        ensures { Committed self.old commit result self.new }
    {
        if let Some(refusal) = self.not_current(&commit) {
            return Err((refusal, commit));
        }
        self.make_stamps();
        self.make_books();
        self.accept(commit)
    }

    // The first reason to refuse the commit that doesn't look at what its edits do.
    pub(crate) fn not_current(&self, commit: &Commit) -> Option<Refusal>
        ensures refused { IfSome result (Refuses self.now commit.now) }
        ensures current { IfNone result (IsCurrent self.now commit.now) }
    {
        let now = self.version();
        let limit = self.limit.entries();
        if now >= u64::from(limit) {
            return Some(Refusal::JournalFull { limit });
        }
        if commit.base() > now {
            return Some(Refusal::Ahead { now });
        }
        if commit.edits().is_empty() {
            return Some(Refusal::NoEdits);
        }
        match first_stale(&self.journal, self.stamps.as_ref(), commit) {
            Some((thing, at)) => Some(Refusal::Stale { now, thing, at }),
            None => None,
        }
    }

    // Makes the stamps where they don't stand, if there is memory for them.
    pub(crate) fn make_stamps(&mut self)
        ensures { self.new ≡ self.old }
    {
        if self.stamps.is_some() {
            return;
        }
        let _most = self.limit.entries();
        let size = self.scene.grid().size();
        if let Ok(stamps) = Stamps::of(self.alloc, size, &self.journal) {
            self.stamps = Some(stamps);
        }
    }

    // Applies the edits of a commit that is current, and puts it into the journal.
    pub(crate) fn accept(&mut self, commit: Commit) -> Result<u64, (Refusal, Commit)>
        requires { IsCurrent self.old commit }
        ensures { Committed self.old commit result self.new }
    {
        if self.journal.reserve(1).is_err() {
            return Err((Refusal::OutOfMemory, commit));
        }
        let _most = self.limit.entries();
        let size = self.scene.grid().size();
        match self.scene.apply_all(commit.edits()) {
            Ok(changes) => {
                let (books, history) = (self.books.take(), self.history.take());
                let kept = recorded(books, history, changes.items(), &self.scene);
                drop(replace(&mut self.books, kept.0));
                drop(replace(&mut self.history, kept.1));
            }
            Err(EditsFault::Faulty { index, why }) => {
                return Err((Refusal::Faulty { index, why }, commit));
            }
            Err(EditsFault::OutOfMemory) => return Err((Refusal::OutOfMemory, commit)),
        }
        let stamps = with_entry(size, self.stamps.take(), &self.journal, &commit);
        drop(replace(&mut self.stamps, stamps));
        match self.journal.push(commit) {
            Ok(()) => Ok(self.journal.len() as u64),
            Err(_) => unreachable!(),
        }
    }
}

// The books of the scene that edits with those changes made of the one before: none where none stood,
// or where they find no memory to go along. The next call that needs them then makes them anew.
pub(crate) fn followed(books: Option<Books>, changes: &[Change], scene: &Scene) -> Option<Books>
    requires { (before : SceneState) × ChangedBy before changes.now scene.now × WhereBooksStand before books }
    ensures { WhereBooksStand scene.now result }
{
    books?.follow(changes, scene).ok()
}
