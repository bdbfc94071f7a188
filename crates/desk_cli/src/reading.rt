//! What each word of the program asks for, by what was matched behind it.
ghost use Rattle.std.specs.Prelude.{◌≡◌, IfOk, codes, unwrap_or};
ghost use Rattle.clap.specs.Matches.{found_of};
ghost use Rattle.desk_cli.specs.Values.{mode_named, number_given};
ghost use Rattle.desk_cli.specs.Asked.{AsksFor, AsksToAudit, AsksToCheck, AsksToDraw, AsksToDrill, AsksToHost, AsksToServe, usual_words};

use crate::kinds::{kinds_asked, kinds_given};
use crate::pages::page_words;
use crate::ranges::range_of;
use crate::values::{
    form_given, is_synced, lines_given, mode_given, more_paths_given, number_given, paths_given,
    text_given, texts_given,
};
use crate::words::{AuditWords, CheckWords, DrawWords, DrillWords, HostWords, ServeWords, Words};
use clap::ArgMatches;
use plan_table::Mode;
use session_lines::LinesVersion;
use std::alloc::{AllocError, Global};

/// How many commits the journal takes if the words don't say.
const USUAL_LIMIT: u32 = 100_000;

/// How many changes of the report are kept if the words don't say.
const USUAL_HISTORY: u32 = 1_000_000;

/// How many threads make a report if the words don't say.
const USUAL_WORKERS: u32 = 4;

fn agents_of(matches: &ArgMatches<'static>) -> u32
    ensures { result ≡ unwrap_or (number_given (found_of matches.now) (codes "agents")) 0 }
{
    number_given(matches, "agents").unwrap_or(0)
}

fn workers_of(matches: &ArgMatches<'static>) -> u32
    ensures { result ≡ unwrap_or (number_given (found_of matches.now) (codes "workers")) 4 }
{
    number_given(matches, "workers").unwrap_or(USUAL_WORKERS)
}

fn history_of(matches: &ArgMatches<'static>) -> u32
    ensures { result ≡ unwrap_or (number_given (found_of matches.now) (codes "history")) 1000000 }
{
    number_given(matches, "history").unwrap_or(USUAL_HISTORY)
}

fn serve_words(matches: &ArgMatches<'static>, usual: LinesVersion) -> ServeWords
    ensures { AsksToServe usual (found_of matches.now) result }
{
    ServeWords {
        map: matches.get_str("map"),
        scen: matches.get_str("scen"),
        agents: agents_of(matches),
        limit: number_given(matches, "limit").unwrap_or(USUAL_LIMIT),
        mode: mode_given(matches),
        journal: matches.get_str("journal"),
        save: matches.get_str("save"),
        log: matches.get_str("log"),
        is_synced: is_synced(matches),
        lines: lines_given(matches, usual),
        history: history_of(matches),
    }
}

fn audit_words(matches: &ArgMatches<'static>) -> AuditWords
    ensures { AsksToAudit (found_of matches.now) result }
{
    AuditWords {
        map: text_given(matches, "map"),
        scen: matches.get_str("scen"),
        agents: agents_of(matches),
        mode: mode_given(matches),
        journal: matches.get_str("journal"),
        workers: workers_of(matches),
    }
}

fn drill_words(alloc: Global, matches: &ArgMatches<'static>) -> Result<DrillWords, AllocError>
    ensures { IfOk result (AsksToDrill (found_of matches.now)) }
{
    let scripts = texts_given(alloc, matches, "script")?;
    Ok(DrillWords {
        map: text_given(matches, "map"),
        scen: matches.get_str("scen"),
        agents: agents_of(matches),
        mode: mode_given(matches),
        workers: workers_of(matches),
        lines: lines_given(matches, LinesVersion::One),
        history: history_of(matches),
        scripts,
    })
}

fn host_words(alloc: Global, matches: &ArgMatches<'static>) -> Result<HostWords, AllocError>
    ensures { IfOk result (AsksToHost (found_of matches.now)) }
{
    let names = texts_given(alloc, matches, "name")?;
    Ok(HostWords {
        desk: serve_words(matches, LinesVersion::Two),
        wait: number_given(matches, "wait"),
        workers: workers_of(matches),
        names,
    })
}

fn check_words(alloc: Global, matches: &ArgMatches<'static>) -> Result<CheckWords, AllocError>
    ensures { IfOk result (AsksToCheck (found_of matches.now)) }
{
    let more = more_paths_given(alloc, matches)?;
    Ok(CheckWords {
        map: text_given(matches, "map"),
        scen: matches.get_str("scen"),
        agents: number_given(matches, "agents"),
        mode: mode_given(matches),
        paths: paths_given(matches).unwrap_or(""),
        more,
        form: form_given(matches),
        kinds: kinds_given(matches),
        quiet: matches.get_flag("quiet"),
        only: matches.get_flag("only"),
        is_json: matches.get_flag("json"),
        own_cells: matches.get_flag("own-cells"),
        workers: workers_of(matches),
    })
}

fn draw_words(matches: &ArgMatches<'static>) -> DrawWords
    ensures { AsksToDraw (found_of matches.now) result }
{
    DrawWords {
        map: text_given(matches, "map"),
        scen: matches.get_str("scen"),
        agents: number_given(matches, "agents"),
        mode: mode_given(matches),
        journal: matches.get_str("journal"),
        paths: paths_given(matches),
        at: number_given(matches, "at"),
        shown: range_of(text_given(matches, "agents-shown")),
        kinds: kinds_asked(matches),
    }
}

/// What is asked for if no word names it.
pub(crate) fn usual_words() -> ServeWords
    ensures { result ≡ usual_words }
{
    ServeWords {
        map: None,
        scen: None,
        agents: 0,
        limit: USUAL_LIMIT,
        mode: Mode::Stay,
        journal: None,
        save: None,
        log: None,
        is_synced: true,
        lines: LinesVersion::One,
        history: USUAL_HISTORY,
    }
}

/// What is asked for by the word of that name.
///
/// # Errors
///
/// Want of memory.
pub(crate) fn named_words(
    alloc: Global,
    name: &str,
    inner: &ArgMatches<'static>,
) -> Result<Words, AllocError>
    ensures { IfOk result (AsksFor name.now (found_of inner.now)) }
{
    if name == "drill" {
        Ok(Words::Drill(drill_words(alloc, inner)?))
    } else if name == "host" {
        Ok(Words::Host(host_words(alloc, inner)?))
    } else if name == "check" {
        Ok(Words::Check(check_words(alloc, inner)?))
    } else if name == "draw" {
        Ok(Words::Draw(draw_words(inner)))
    } else if name == "page" {
        Ok(Words::Page(page_words(inner)))
    } else if name == "audit" {
        Ok(Words::Audit(audit_words(inner)))
    } else {
        Ok(Words::Serve(serve_words(inner, LinesVersion::One)))
    }
}
