//! What the program's words ask for.
ghost use Rattle.std.specs.Prelude.{IfOk, IfSome, map, string_bytes};
ghost use Rattle.desk_cli.specs.Asked.{Asks, AsksSo, IsAskedBy, IsMatched, IsToldBehind, IsVerbose};

use crate::mistakes::{mistake_in, refused};
use crate::program::command;
use crate::reading::{named_words, usual_words};
use crate::words::{Asked, Words};
use clap::{ArgMatches, Error};
use std::alloc::{AllocError, Global};

// The version is told whatever else is asked for, as help is.
fn words_of(alloc: Global, matches: &ArgMatches<'static>) -> Result<Words, AllocError>
    ensures { IfOk result (Asks matches.now) }
{
    if matches.get_flag("version") {
        return Ok(Words::Version);
    }
    match matches.subcommand() {
        Some((name, inner)) => named_words(alloc, name, inner),
        None => Ok(Words::Serve(usual_words())),
    }
}

// Whether the flag for more to be told stands behind the word.
fn is_told_behind(matches: &ArgMatches<'static>) -> bool
    ensures { IsToldBehind matches.now result }
{
    match matches.subcommand() {
        Some((_, inner)) => inner.get_flag("verbose"),
        None => false,
    }
}

// Whether more is to be told: the flag stands before the word or behind it.
fn is_verbose(matches: &ArgMatches<'static>) -> bool
    ensures { IsVerbose matches.now result }
{
    matches.get_flag("verbose") || is_told_behind(matches)
}

// What the words that were matched ask for.
fn asked_of(alloc: Global, matches: &ArgMatches<'static>) -> Asked
    ensures { AsksSo matches.now result }
{
    if let Some((name, inner)) = matches.subcommand() {
        match mistake_in(alloc, name, inner) {
            Ok(None) => (),
            Ok(Some(mistake)) => return refused(alloc, mistake.as_str()),
            Err(_) => return Asked::NoMemory,
        }
    }
    match words_of(alloc, matches) {
        Ok(words) => Asked::For {
            words,
            verbose: is_verbose(matches),
        },
        Err(_) => Asked::NoMemory,
    }
}

// The words as their parser matches them; none where memory is short.
#[tactic(auto, using(crate::proofs::Found::found_by))]
fn matched<'a>(alloc: Global, words: &'a [String]) -> Option<Result<ArgMatches<'a>, Error>>
    ensures { IfSome result (λ read. IfOk read (IsMatched (map string_bytes words.entry.now))) }
{
    match command(alloc) {
        Ok(command) => Some(command.try_get_matches_from(words)),
        Err(_) => None,
    }
}

/// What the program's words, its name first, ask for; they stay as long as it runs.
#[tactic(auto, using(crate::proofs::Found::asked_by))]
pub fn read_words(alloc: Global, words: &'static [String]) -> Asked
    ensures { IsAskedBy (map string_bytes words.entry.now) result }
{
    match matched(alloc, words) {
        Some(Ok(matches)) => {
            let asked = asked_of(alloc, &matches);
            drop(matches);
            asked
        }
        Some(Err(error)) => Asked::Refused(error),
        None => Asked::NoMemory,
    }
}
