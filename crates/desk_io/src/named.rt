//! The files that the words name.
ghost use Rattle.std.specs.Prelude.{◌≡◌, None, Ok, Err, IfErr, IfOk, option_map};
ghost use Rattle.std.specs.Option.{option_copied};
ghost use Rattle.solver_check.specs.Opens.{bytes_of};
ghost use Rattle.desk_io.specs.Texts.{AreTexts, IsCourses, IsText, IsUnreadOf};

use crate::details::Texts;
use crate::files::{Folder, named_bytes};
use crate::telling::More;
use solver_check::Fault;

/// The bytes of the files that the words name.
#[derive(Drop)]
pub struct Named {
    map: Option<Vec<u8>>,
    scen: Option<Vec<u8>>,
    journal: Option<Vec<u8>>,
}

// The bytes that were read, if any.
fn text_in(bytes: &Option<Vec<u8>>) -> Option<&[u8]>
    ensures { bytes_of result ≡ option_map (λ b. b.items) bytes.now }
{
    match bytes {
        Some(bytes) => Some(bytes.as_slice()),
        None => None,
    }
}

impl Named {
    /// The bytes of each file in its place.
    pub fn texts(&self) -> Texts<'_>
        ensures map { bytes_of result.map ≡ option_map (λ b. b.items) self.now.map }
        ensures scen { bytes_of result.scen ≡ option_map (λ b. b.items) self.now.scen }
        ensures journal { bytes_of result.journal ≡ option_map (λ b. b.items) self.now.journal }
        ensures form { result.form ≡ None }
    {
        Texts {
            map: text_in(&self.map),
            scen: text_in(&self.scen),
            journal: text_in(&self.journal),
            form: None,
        }
    }
}

// The text of the journal, where one is named, and else that of the paths.
fn named_courses<F: Folder>(
    folder: &F,
    journal: Option<&'static str>,
    paths: Option<&'static str>,
    more: &mut More,
) -> Result<Option<Vec<u8>>, Fault>
    ensures read { IfOk result (λ text. IsCourses (F.holds folder.now) (option_copied journal.entry) (option_copied paths.entry)
        (option_map (λ b. b.items) text)) }
    ensures unread { IfErr result (IsUnreadOf (F.holds folder.now) None None (option_copied journal.entry) (option_copied paths.entry)) }
{
    match journal {
        None => named_bytes(folder, paths, more),
        Some(file) => match folder.journal(file, more) {
            Ok(text) => Ok(Some(text)),
            Err(fault) => Err(fault),
        },
    }
}

// The map and the scenario, where they are named.
fn read_problem<F: Folder>(
    folder: &F,
    map: Option<&'static str>,
    scen: Option<&'static str>,
    more: &mut More,
) -> Result<(Option<Vec<u8>>, Option<Vec<u8>>), Fault>
    ensures map { IfOk result (λ read. IsText (F.holds folder.now) (option_copied map.entry) (option_map (λ b. b.items) read.0)) }
    ensures scen { IfOk result (λ read. IsText (F.holds folder.now) (option_copied scen.entry) (option_map (λ b. b.items) read.1)) }
    ensures unread { IfErr result (IsUnreadOf (F.holds folder.now) (option_copied map.entry) (option_copied scen.entry) None None) }
{
    let map = match named_bytes(folder, map, more) {
        Ok(map) => map,
        Err(fault) => return Err(fault),
    };
    match named_bytes(folder, scen, more) {
        Ok(scen) => Ok((map, scen)),
        Err(fault) => {
            drop(map);
            Err(fault)
        }
    }
}

// The map and the scenario, and the agents' courses where they were read.
fn with_courses(
    read: (Option<Vec<u8>>, Option<Vec<u8>>),
    courses: Result<Option<Vec<u8>>, Fault>,
) -> Result<Named, Fault>
    ensures map { IfOk result (λ named. named.map ≡ read.0) }
    ensures scen { IfOk result (λ named. named.scen ≡ read.1) }
    ensures courses { IfOk result (λ named. courses ≡ Ok named.journal) }
    ensures unread { IfErr result (λ fault. courses ≡ Err fault) }
{
    let (map, scen) = read;
    match courses {
        Ok(journal) => Ok(Named { map, scen, journal }),
        Err(fault) => {
            drop(scen);
            drop(map);
            Err(fault)
        }
    }
}

/// Reads the files of a folder that are named: of a journal where one is, and else of a solver's paths.
///
/// # Errors
///
/// The first file that can't be read.
pub fn read_from<F: Folder>(
    folder: &F,
    map: Option<&'static str>,
    scen: Option<&'static str>,
    journal: Option<&'static str>,
    paths: Option<&'static str>,
    more: &mut More,
) -> Result<Named, Fault>
    ensures read { IfOk result (AreTexts (F.holds folder.now) (option_copied map.entry) (option_copied scen.entry) (option_copied journal.entry)
        (option_copied paths.entry)) }
    ensures unread { IfErr result (IsUnreadOf (F.holds folder.now) (option_copied map.entry) (option_copied scen.entry) (option_copied journal.entry)
        (option_copied paths.entry)) }
{
    match read_problem(folder, map, scen, more) {
        Ok(read) => with_courses(read, named_courses(folder, journal, paths, more)),
        Err(fault) => Err(fault),
    }
}
