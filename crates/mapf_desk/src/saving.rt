//! A file that is whole at any moment.
ghost use Rattle.std.specs.Prelude.{◌≡◌, None, IfErr, IfOk, IsOk, OnOk, option_map};
ghost use Rattle.desk_io.specs.Texts.{IsUnheld};
ghost use Rattle.mapf_desk.specs.Ends.{IsSavedIn, IsUnsaved, IsUnsavedIn, Savings, unsaid};
ghost use Rattle.single_runs.specs.Saved.{saved_text};

use atomic_save::{NamedFile, SaveError, SystemFile, SystemTemporary};
use desk_core::Desk;
use desk_io::{HeldFile, More, System, hold_named};
use single_runs::{DeskJournal, save_journal};
use solver_check::Fault;
use std::fs::File;
use std::io::Error;
use std::rt::Files;
use std::time::Clock;

/// A file that is held to be saved in, by its name. No other session saves there until this one has, or
/// lets it go.
#[derive(Drop)]
pub struct Held<P: Drop> {
    pub file: &'static str,
    pub place: P,
}

/// What holds files, and saves the journals of desks in them.
pub trait Saver {
    /// What is held of a file beside its name.
    type Place: Drop;

    /// Which files were saved, with which bytes.
    ghost has_saved: { Self → Savings };

    /// Holds the file of that name.
    ///
    /// # Errors
    ///
    /// Another session holds it, or it can't be saved, and why; or want of memory.
    fn hold(&self, file: &'static str, more: &mut More) -> Result<Held<Self::Place>, Fault>
        ensures held { IfOk result (λ held. held.file.now ≡ file.now) }
        ensures unheld { IfErr result (IsUnheld file.now) };

    /// Saves a desk's journal in the file, which is whole at any moment. It takes no memory.
    ///
    /// # Errors
    ///
    /// It can't be saved, and why: the file is then as it was. Where the journal can be written whole in
    /// another file, also in another folder, it is kept there.
    fn save(&self, desk: &Desk, held: Held<Self::Place>, more: &mut More) -> Result<(), Fault>
        ensures saved { OnOk result (has_saved self.now held.file.now (saved_text desk.now)) }
        ensures unsaved { IfErr result (IsUnsaved held.file.now) };

    /// Lets the file go: it stays as it is.
    fn release(&self, held: Held<Self::Place>);
}

impl<R: Files<File = File> + AllocGlobal + Clock + Clone + Drop> Saver for System<'_, R> {
    // (no name: the borrow checker takes no `'static` there)
    type Place = (SystemFile<R>, SystemTemporary);

    ghost has_saved = { λ _. unsaid };

    fn hold(
        &self,
        file: &'static str,
        more: &mut More,
    ) -> Result<Held<(SystemFile<R>, SystemTemporary)>, Fault> {
        let held = match hold_named(self.0, Some(file), more) {
            Ok(Some(held)) => held,
            Ok(None) => unreachable!(),
            Err(fault) => return Err(fault),
        };
        let HeldFile {
            file,
            named,
            temporary,
        } = held;
        Ok(Held {
            file,
            place: (named, temporary),
        })
    }

    fn save(
        &self,
        desk: &Desk,
        held: Held<(SystemFile<R>, SystemTemporary)>,
        more: &mut More,
    ) -> Result<(), Fault>
        ensures saved { OnOk result (unsaid held.file.now (saved_text desk.now)) }
        ensures unsaved { IfErr result (IsUnsaved held.file.now) }
    {
        let Held {
            file,
            place: (mut named, temporary),
        } = held;
        let (fault, why) = match save_journal(desk, &mut named, temporary) {
            Ok(()) => return Ok(()),
            Err(why) => unsaved(desk, named, file, why),
        };
        if let Some(why) = why {
            more.reason(self.0.alloc(), &why);
        }
        Err(fault)
    }

    fn release(&self, held: Held<(SystemFile<R>, SystemTemporary)>) {
        let Held {
            file: _,
            place: (mut named, temporary),
        } = held;
        named.remove(temporary);
    }
}

/// Saves a desk's journal in the file that is held, if any.
///
/// # Errors
///
/// As `Saver::save`.
pub fn save_held<S: Saver>(
    saver: &S,
    desk: &Desk,
    held: Option<Held<S::Place>>,
    more: &mut More,
) -> Result<(), Fault>
    ensures none { held ≡ None → IsOk result × (more.new ≡ more.old) }
    ensures saved { OnOk result (IsSavedIn (S.has_saved saver.now) (option_map (λ held. held.file.now) held) desk.now) }
    ensures unsaved { IfErr result (IsUnsavedIn (option_map (λ held. held.file.now) held)) }
{
    match held {
        None => Ok(()),
        Some(held) => saver.save(desk, held, more),
    }
}

// Why the journal isn't in the file: the fault, and the system's reason.
fn unsaved<R: Files<File = File> + AllocGlobal + Drop>(
    desk: &Desk,
    named: SystemFile<R>,
    file: &'static str,
    why: SaveError,
) -> (Fault, Option<Error>)
    ensures { IsUnsaved file.now result.0 }
{
    match why {
        SaveError::NotDurable => (Fault::CannotWrite { file }, named.into_reason()),
        _ => kept(desk, named, file),
    }
}

// The journal that couldn't get the file's name, or be written beside it: the fault, and the system's
// reason.
fn kept<R: Files<File = File> + AllocGlobal + Drop>(
    desk: &Desk,
    named: SystemFile<R>,
    file: &'static str,
) -> (Fault, Option<Error>)
    ensures { IsUnsaved file.now result.0 }
{
    let (kept, why) = named.into_kept(&DeskJournal { desk });
    match kept {
        Some(kept) => (Fault::Kept { file, kept }, why),
        None => (Fault::CannotWrite { file }, why),
    }
}
