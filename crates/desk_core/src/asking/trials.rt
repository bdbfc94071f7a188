//! What a commit would be answered, and what would then be answered of the desk.
ghost use Rattle.std.specs.Prelude.{◌≡◌, ◌++◌, ◌∷◌, [], None, List, IfOk, IfErr};
ghost use Rattle.scene_edits.specs.Scene.{SceneState};
ghost use Rattle.scene_edits.specs.ChangedBy.{ChangedBy};
ghost use Rattle.desk_commits.specs.Commits.{IsCurrent, Accepts, Refuses, Tries};
ghost use Rattle.desk_commits.specs.Entries.{Entry};
ghost use Rattle.desk_commits.specs.State.{grown};
ghost use Rattle.desk_core.specs.Kept.{IsKeptDesk, WhereBooksStand};

use super::Question;
use crate::accepting::followed;
use crate::desks::Desk;
use crate::recording::recorded;
use desk_commits::{Commit, Refusal, Stamps};
use grid_cells::OutOfMemory;
use live_report::{Books, History};
use scene_edits::{EditsFault, Reversible, Scene};
use std::mem::replace;

/// The trial of a commit: the version that it would make, and what would then be answered to the
/// question. The desk is afterwards as before, and nobody else sees it otherwise.
///
/// # Errors
///
/// The first reason to refuse the commit, as `commit` answers it.
#[derive(Debug, Drop)]
pub struct Trial<Q> {
    pub commit: Commit,
    pub question: Q,
}

impl<Q: Question> Question for Trial<Q> {
    type Answer = Result<(u64, Q::Answer), Refusal>;

    ghost use Rattle.desk_commits.specs.Commits.{Tries};

    ghost answers = { λ trial desk answer. Tries desk trial.commit (Q.answers trial.question) answer };

    fn put(&self, desk: &mut Desk) -> Result<(u64, Q::Answer), Refusal> {
        desk.try_out(&self.commit, &self.question, 0)
    }
}

impl Desk {
    // The trial of the commit, with that question. Meanwhile a history may have so many elements.
    pub(crate) fn try_out<Q: Question>(
        &mut self,
        commit: &Commit,
        question: &Q,
        most: usize,
    ) -> Result<(u64, Q::Answer), Refusal>
        ensures answer { Tries self.old commit.now (Q.answers question.now) result }
        ensures same { self.new ≡ self.old }
    {
        if let Some(refusal) = self.not_current(commit) {
            return Err(refusal);
        }
        self.make_stamps();
        let Ok(copy) = commit.copy(self.alloc) else {
            return Err(Refusal::OutOfMemory);
        };
        let (stamps, history) = (self.stamps.take(), self.history.take());
        let before = replace(&mut self.most, most);
        self.make_books();
        match self.accept_reversibly(copy) {
            Ok(changes) => {
                let version = self.version();
                let answer = question.put(self);
                self.take_back(changes, stamps, history);
                self.most = before;
                Ok((version, answer))
            }
            Err(refusal) => {
                drop(replace(&mut self.stamps, stamps));
                drop(replace(&mut self.history, history));
                self.most = before;
                Err(refusal)
            }
        }
    }

    // Applies the edits of a commit that is current, and puts it into the journal, in such a way that it can be taken back. No stamps
    // stand then.
    fn accept_reversibly(&mut self, commit: Commit) -> Result<Reversible, Refusal>
        requires { IsCurrent self.old commit }
        ensures refused { IfErr result (λ refusal. Refuses self.old commit refusal × (self.new ≡ self.old)) }
        ensures accepted { IfOk result (λ changes. Accepts self.old commit × (self.new ≡ grown self.old commit)
            × ChangedBy self.old.scene changes self.new.scene) }
    {
        if self.journal.reserve(1).is_err() {
            return Err(Refusal::OutOfMemory);
        }
        let _grid = self.scene.grid();
        match self.scene.apply_reversibly(commit.edits()) {
            Ok(changes) => {
                let (books, history) = (self.books.take(), self.history.take());
                let kept = recorded(books, history, changes.items(), &self.scene);
                drop(replace(&mut self.books, kept.0));
                drop(replace(&mut self.history, kept.1));
                drop(self.stamps.take());
                match self.journal.push(commit) {
                    Ok(()) => Ok(changes),
                    Err(_) => unreachable!(),
                }
            }
            Err(EditsFault::Faulty { index, why }) => Err(Refusal::Faulty { index, why }),
            Err(EditsFault::OutOfMemory) => Err(Refusal::OutOfMemory),
        }
    }

    // Takes back the last entry, whose edits made those changes. Stamps and history are those of the journal before it.
    fn take_back(&mut self, changes: Reversible, stamps: Option<Stamps>, history: Option<History>)
        requires { (scene : SceneState) × (journal : List Entry) × (entry : Entry) × (self.old.journal ≡ journal ++ entry ∷ [])
            × ChangedBy scene changes self.old.scene × IsKeptDesk self.old.start scene journal self.old.limit stamps None history }
        ensures { (scene : SceneState) (journal : List Entry) (entry : Entry) → self.old.journal ≡ journal ++ entry ∷ []
            → ChangedBy scene changes self.old.scene → self.new ≡ record { start = self.old.start; scene = scene; journal = journal; limit = self.old.limit } }
    {
        drop(self.journal.pop());
        let books = reverted(self.books.take(), changes, &mut self.scene);
        drop(replace(&mut self.books, books));
        drop(replace(&mut self.stamps, stamps));
        drop(replace(&mut self.history, history));
    }
}

// Takes the changes back in the scene, and answers the books of the scene before them: none where none stood, or where they find no
// memory to go along.
fn reverted(books: Option<Books>, changes: Reversible, scene: &mut Scene) -> Option<Books>
    requires changed { (before : SceneState) × ChangedBy before changes scene.old }
    requires stand { WhereBooksStand scene.old books }
    ensures back { (before : SceneState) → ChangedBy before changes scene.old → scene.new ≡ before }
    ensures stand { WhereBooksStand scene.new result }
{
    match scene.revert(changes) {
        Ok(turned) => followed(books, turned.items(), scene),
        Err(OutOfMemory) => {
            drop(books);
            None
        }
    }
}
