//! The values of options, as the parser found them.
ghost use Rattle.std.specs.Prelude.{◌≡◌, [], IfOk, codes, map, option_and_then, option_map, unwrap_or};
ghost use Rattle.std.specs.Option.{option_copied};
ghost use Rattle.clap.specs.Matches.{first_value, found_of, matched_of, raw_values};
ghost use Rattle.bench_reader.specs.Words.{number_of};
ghost use Rattle.desk_cli.specs.Asked.{IsForm};
ghost use Rattle.desk_cli.specs.Values.{
  file_named,
  files_behind,
  form_flipped,
  form_named,
  is_sync_named,
  lines_named,
  mode_named,
  number_given,
  texts_given,
  texts_in,
};

use bench_reader::number_of;
use clap::ArgMatches;
use path_files::Form;
use plan_table::Mode;
use session_lines::LinesVersion;
use std::alloc::{AllocError, Global};

/// The text that an option names, or an empty one.
pub(crate) fn text_given(matches: &ArgMatches<'static>, name: &str) -> &'static str
    ensures { result.now ≡ unwrap_or (first_value (found_of matches.now) name.now) [] }
{
    match matches.get_str(name) {
        Some(text) => text,
        None => "",
    }
}

// The file of that name; a dash stands for standard input.
fn file_named(name: &'static str) -> &'static str
    ensures { result.now ≡ file_named name.now }
{
    if name == "-" { "/dev/stdin" } else { name }
}

/// The file of the paths, if it is named.
pub(crate) fn paths_given(matches: &ArgMatches<'static>) -> Option<&'static str>
    ensures { option_copied result ≡ option_map file_named (first_value (found_of matches.now) (codes "paths")) }
{
    match matches.get_str("paths") {
        Some(name) => Some(file_named(name)),
        None => None,
    }
}

// The files of those names.
fn files_named(alloc: Global, names: &[&'static str]) -> Result<Vec<&'static str>, AllocError>
    ensures { IfOk result (λ files. texts_in files.items ≡ map file_named (texts_in names.now)) }
{
    let mut files = Vec::new(alloc);
    for name in names {
        files.push(file_named(name))?;
    }
    Ok(files)
}

/// The files of the paths behind the first.
pub(crate) fn more_paths_given(
    alloc: Global,
    matches: &ArgMatches<'static>,
) -> Result<Vec<&'static str>, AllocError>
    ensures { IfOk result (λ files. texts_in files.items ≡ files_behind (texts_given (found_of matches.now) (codes "paths"))) }
{
    match matches.get_strs("paths") {
        Some([_first, later @ ..]) => files_named(alloc, later),
        _ => Ok(Vec::new(alloc)),
    }
}

// The number that the text, if there is one, writes in decimal digits.
fn number_in(text: Option<&str>) -> Option<u32>
    ensures { result ≡ option_and_then number_of (option_copied text.entry) }
{
    match text {
        Some(digits) => number_of(digits.as_bytes()),
        None => None,
    }
}

/// The number that an option names.
pub(crate) fn number_given(matches: &ArgMatches<'static>, name: &str) -> Option<u32>
    ensures { result ≡ number_given (found_of matches.now) name.now }
{
    number_in(matches.get_str(name))
}

/// The texts that an option names, or no option.
pub(crate) fn texts_given(
    alloc: Global,
    matches: &ArgMatches<'static>,
    name: &str,
) -> Result<Vec<&'static str>, AllocError>
    ensures { IfOk result (λ texts. texts_in texts.items ≡ texts_given (found_of matches.now) name.now) }
{
    match matches.get_strs(name) {
        Some(texts) => Vec::from_slice(alloc, texts),
        None => Ok(Vec::new(alloc)),
    }
}

fn mode_named(text: Option<&str>) -> Mode
    ensures { result ≡ mode_named (option_copied text.entry) }
{
    match text {
        Some(text) if text == "disappear" => Mode::Disappear,
        _ => Mode::Stay,
    }
}

/// The mode of agents at their goals.
pub(crate) fn mode_given(matches: &ArgMatches<'static>) -> Mode
    ensures { result ≡ mode_named (first_value (found_of matches.now) (codes "mode")) }
{
    mode_named(matches.get_str("mode"))
}

fn is_sync_named(text: Option<&str>) -> bool
    ensures { result ≡ is_sync_named (option_copied text.entry) }
{
    match text {
        Some(text) => text != "off",
        None => true,
    }
}

/// Whether a log is synced.
pub(crate) fn is_synced(matches: &ArgMatches<'static>) -> bool
    ensures { result ≡ is_sync_named (first_value (found_of matches.now) (codes "sync")) }
{
    is_sync_named(matches.get_str("sync"))
}

fn lines_named(usual: LinesVersion, text: Option<&str>) -> LinesVersion
    ensures { result ≡ lines_named usual (option_copied text.entry) }
{
    match text {
        Some(text) if text == "2" => LinesVersion::Two,
        Some(_) => LinesVersion::One,
        None => usual,
    }
}

/// The version of lines that an option names, or else the usual one.
pub(crate) fn lines_given(matches: &ArgMatches<'static>, usual: LinesVersion) -> LinesVersion
    ensures { result ≡ lines_named usual (first_value (found_of matches.now) (codes "lines")) }
{
    lines_named(usual, matches.get_str("lines"))
}

fn form_named(text: Option<&str>) -> Option<Form>
    ensures { result ≡ form_named (option_copied text.entry) }
{
    let text = text?;
    if text == "time" {
        Some(Form::ByTime)
    } else if text == "agent" {
        Some(Form::ByAgent)
    } else if text == "session" {
        Some(Form::BySession)
    } else if text == "moves" {
        Some(Form::ByMoves)
    } else if text == "json" {
        Some(Form::ByJson)
    } else if text == "schedule" {
        Some(Form::BySchedule)
    } else {
        None
    }
}

// That form, where moves are flipped or aren't; without a form, flipped paths are moves.
fn form_flipped(flipped: bool, form: Option<Form>) -> Option<Form>
    ensures { result ≡ form_flipped flipped form }
{
    match form {
        None | Some(Form::ByMoves) if flipped => Some(Form::ByFlippedMoves),
        form => form,
    }
}

/// The form of a file of paths, if it is named, or if its moves are flipped.
pub(crate) fn form_given(matches: &ArgMatches<'static>) -> Option<Form>
    ensures { IsForm (found_of matches.now) result }
{
    form_flipped(
        matches.get_flag("flip"),
        form_named(matches.get_str("form")),
    )
}
