//! What a commit changes in the report goes into the history, where one is kept.
ghost use Rattle.std.specs.Prelude.{◌≡◌, ◌++◌, ◌∷◌, [], List};
ghost use Rattle.scene_edits.specs.Scene.{SceneState};
ghost use Rattle.scene_edits.specs.ChangedBy.{ChangedBy};
ghost use Rattle.desk_commits.specs.Entries.{Entry};
ghost use Rattle.desk_commits.specs.State.{scene_after};
ghost use Rattle.desk_core.specs.Histories.{WhereHistoryStands};
ghost use Rattle.desk_core.specs.Kept.{WhereBooksStand};

use crate::accepting::followed;
use desk_report::one_report;
use live_report::{Books, History};
use scene_edits::{Change, Scene};

// The books and the history of the scene that edits with those changes made of the one before. No history
// stands then where none stood, or where what changed isn't known: no books or lines stood, or there was
// no memory.
pub(crate) fn recorded(
    books: Option<Books>,
    history: Option<History>,
    changes: &[Change],
    scene: &Scene,
) -> (Option<Books>, Option<History>)
    requires { (before : SceneState) × ChangedBy before changes.now scene.now × WhereBooksStand before books }
    ensures books { WhereBooksStand scene.now result.0 }
    ensures history { (start : SceneState) (journal : List Entry) (entry : Entry) → ChangedBy (scene_after start journal) changes.now scene.now
        → WhereBooksStand (scene_after start journal) books → scene.now ≡ scene_after start (journal ++ entry ∷ [])
        → WhereHistoryStands start journal history → WhereHistoryStands start (journal ++ entry ∷ []) result.1 }
{
    let Some(history) = history else {
        return (followed(books, changes, scene), None);
    };
    let Some(books) = books else {
        drop(history);
        return (None, None);
    };
    match books.follow_telling(changes, scene) {
        Ok((books, turnover)) => {
            one_report();
            let _plans = scene.plans();
            books.report_is_there(scene);
            (Some(books), history.push(turnover).ok())
        }
        Err(_) => {
            drop(history);
            (None, None)
        }
    }
}
