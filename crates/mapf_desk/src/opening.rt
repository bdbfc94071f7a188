//! The desk that planners are to share.
ghost use Rattle.std.specs.Prelude.{◌≡◌, ◌⊎◌, [], None, Err, IfErr, IfOk, max, min, option_map, unwrap_or};
ghost use Rattle.std.specs.Option.{option_copied};
ghost use Rattle.mapf_desk.specs.Files.{LacksScen};
ghost use Rattle.mapf_desk.specs.Files.{OfFiles};
ghost use Rattle.mapf_desk.specs.Ends.{IsOpened, IsUnnamed};
ghost use Rattle.mapf_desk.specs.Names.{first_repeated, is_among};
ghost use Rattle.single_runs.specs.Opened.{IsDeskFault, OpensDesk};
ghost use Rattle.solver_check.specs.Opens.{bytes_of};
ghost use Rattle.desk_commits.specs.declared.limits.TheConstants.{MOST_ENTRIES};

use crate::faults::ProgramFault;
use crate::reading::{let_go, read_named};
use crate::saving::{Held, Saver};
use crate::serving::{history_for, limit_of};
use desk_cli::{HostWords, ServeWords};
use desk_core::Desk;
use desk_io::{Detailed, Folder, More, Texts, problem_of};
use single_runs::open_keeping;
use solver_check::{Fault, RunFault};
use std::alloc::Global;

fn is_among(name: &str, names: &[&'static str]) -> bool
    ensures { result ≡ is_among name.now names.now }
{
    names.iter().any(|other| *other == name)
}

// The first planner whose name another has before it, where there is one.
pub(crate) fn named_twice(names: &[&'static str]) -> Option<&'static str>
    ensures { option_copied result ≡ first_repeated [] names.now }
{
    for (place, name) in names.iter().enumerate() {
        if is_among(name, &names[..place]) {
            return Some(name);
        }
    }
    None
}

// The desk of the texts and the words.
fn open_texts(alloc: Global, texts: Texts<'_>, words: &ServeWords) -> Result<Desk, RunFault>
    ensures opened { IfOk result (OpensDesk (unwrap_or (bytes_of texts.entry.map) []) (bytes_of texts.entry.scen) words.now.agents words.now.mode
        (max 1 (min words.now.limit MOST_ENTRIES)) (bytes_of texts.entry.journal)) }
    ensures refused { IfErr result (IsDeskFault (unwrap_or (bytes_of texts.entry.map) []) (bytes_of texts.entry.scen) words.now.agents words.now.mode
        (max 1 (min words.now.limit MOST_ENTRIES)) (bytes_of texts.entry.journal)) }
{
    let problem = problem_of(texts, Some(words.agents), words.mode);
    let limit = limit_of(words);
    let history = history_for(words.lines, words.history);
    open_keeping(alloc, problem, limit, texts.journal, history)
}

/// The desk of the files that the words name, which is to be shared by the planners of the words; and
/// the file that it is to be saved in, held.
///
/// # Errors
///
/// What the words lack, a file that can't be read, two planners of one name, or the run's fault.
pub fn open_named<F: Folder + Saver>(
    alloc: Global,
    files: &F,
    words: &HostWords,
    more: &mut More,
) -> Result<(Desk, Option<Held<F::Place>>), ProgramFault>
    ensures asked { LacksScen words.now.desk → result ≡ Err (ProgramFault.Desk Fault.AgentsWithoutScen) }
    ensures opened { IfOk result (λ opened. OfFiles (F.holds files.now) (option_copied words.now.desk.map) (option_copied words.now.desk.scen)
        (option_copied words.now.desk.journal) None (IsOpened words.now.desk opened.0)) }
    ensures apart { IfOk result (λ _. first_repeated [] words.now.names.items ≡ None) }
    ensures held { IfOk result (λ opened. option_map (λ held. held.file.now) opened.1 ≡ option_copied words.now.desk.save) }
    ensures refused { IfErr result (IsUnnamed (F.holds files.now) words.now) }
{
    let (named, held) = match read_named(files, &words.desk, more) {
        Ok(ready) => ready,
        Err(fault) => return Err(ProgramFault::Desk(fault)),
    };
    if let Some(name) = named_twice(words.names.as_slice()) {
        drop(named);
        let_go(files, held);
        return Err(ProgramFault::NamedTwice { name });
    }
    let texts = named.texts();
    let opened = open_texts(alloc, texts, &words.desk);
    if let Err(fault) = &opened {
        more.put(fault.more(alloc, texts));
    }
    drop(named);
    match opened {
        Ok(desk) => Ok((desk, held)),
        Err(fault) => {
            let_go(files, held);
            Err(ProgramFault::Desk(Fault::Run(fault)))
        }
    }
}
