//! The files of `serve` and `host`: the bytes that are read, and the file that is held.
ghost use Rattle.std.specs.Prelude.{◌≡◌, ◌⊎◌, ℕ, List, None, Some, Err, IfErr, IfOk, option_map};
ghost use Rattle.std.specs.Option.{option_copied};
ghost use Rattle.desk_io.specs.Texts.{AreTexts, IsUnheld, IsUnreadOf};
ghost use Rattle.mapf_desk.specs.Files.{IsUnready, LacksScen};

use crate::saving::{Held, Saver};
use desk_cli::ServeWords;
use desk_io::{Folder, More, Named, read_from};
use solver_check::Fault;

/// Lets a file go, if one is held.
pub fn let_go<S: Saver>(saver: &S, held: Option<Held<S::Place>>) {
    if let Some(held) = held {
        saver.release(held);
    }
}

// Holds the file that a desk's journal is to be saved in, where one is named.
fn hold_file<S: Saver>(
    saver: &S,
    file: Option<&'static str>,
    more: &mut More,
) -> Result<Option<Held<S::Place>>, Fault>
    ensures held { IfOk result (λ held. option_map (λ held. held.file.now) held ≡ option_copied file.entry) }
    ensures unheld { IfErr result (λ fault. (name : List ℕ) × (option_copied file.entry ≡ Some name) × IsUnheld name fault) }
{
    match file {
        None => Ok(None),
        Some(file) => match saver.hold(file, more) {
            Ok(held) => Ok(Some(held)),
            Err(fault) => Err(fault),
        },
    }
}

/// Holds the file that the words ask to save in, before the journal is read, which may be the same;
/// and reads the files of `serve`.
///
/// # Errors
///
/// What the words lack, or the first file that can't be read; then that of `Saver::hold`.
pub(crate) fn read_named<F: Folder + Saver>(
    files: &F,
    words: &ServeWords,
    more: &mut More,
) -> Result<(Named, Option<Held<F::Place>>), Fault>
    ensures asked { LacksScen words.now → result ≡ Err Fault.AgentsWithoutScen }
    ensures read { IfOk result (λ ready. AreTexts (F.holds files.now) (option_copied words.now.map) (option_copied words.now.scen)
        (option_copied words.now.journal) None ready.0) }
    ensures held { IfOk result (λ ready. option_map (λ held. held.file.now) ready.1 ≡ option_copied words.now.save) }
    ensures unready { IfErr result (IsUnready (F.holds files.now) words.now) }
{
    if words.agents > 0 && words.scen.is_none() {
        return Err(Fault::AgentsWithoutScen);
    }
    let mut unheld = More::none();
    match hold_file(files, words.save, &mut unheld) {
        Ok(held) => read_held(files, words, held, more),
        Err(fault) => Err(first_fault(files, words, fault, unheld, more)),
    }
}

// Reads the files of `serve`, and lets the one that is held go where one can't be read.
fn read_held<F: Folder + Saver>(
    files: &F,
    words: &ServeWords,
    held: Option<Held<F::Place>>,
    more: &mut More,
) -> Result<(Named, Option<Held<F::Place>>), Fault>
    ensures read { IfOk result (λ ready. AreTexts (F.holds files.now) (option_copied words.now.map) (option_copied words.now.scen)
        (option_copied words.now.journal) None ready.0) }
    ensures held { IfOk result (λ ready. ready.1 ≡ held) }
    ensures unread { IfErr result (IsUnreadOf (F.holds files.now) (option_copied words.now.map) (option_copied words.now.scen)
        (option_copied words.now.journal) None) }
{
    match read_from(files, words.map, words.scen, words.journal, None, more) {
        Ok(named) => Ok((named, held)),
        Err(fault) => {
            let_go(files, held);
            Err(fault)
        }
    }
}

// The fault of the first file of `serve` that can't be read, or else that of the one that can't be held.
fn first_fault<F: Folder>(
    files: &F,
    words: &ServeWords,
    fault: Fault,
    unheld: More,
    more: &mut More,
) -> Fault
    ensures { (result ≡ fault) ⊎ IsUnreadOf (F.holds files.now) (option_copied words.now.map) (option_copied words.now.scen)
        (option_copied words.now.journal) None result }
{
    match read_from(files, words.map, words.scen, words.journal, None, more) {
        Ok(named) => {
            drop(named);
            *more = unheld;
            fault
        }
        Err(earlier) => {
            drop(unheld);
            drop(fault);
            earlier
        }
    }
}
