//! What words are read as, in a line. What is as it is where no word names it is left out.
use crate::values::{
    put_all_kinds, put_file, put_form, put_given, put_kinds, put_lines, put_mode, put_number,
    put_shown,
};
use clap::Error;
use desk_cli::{
    Asked, AuditWords, CheckWords, DrawWords, DrillWords, HostWords, PageWords, ServeWords, Words,
};
use plan_table::Mode;
use session_lines::LinesVersion;
use std::alloc::AllocError;

/// What words are read as.
pub fn put_asked(text: &mut String, asked: &Asked) -> Result<(), AllocError> {
    match asked {
        Asked::NoMemory => text.push_str("no memory"),
        Asked::Refused(error) => put_refusal(text, error),
        Asked::For { words, verbose } => {
            put_words(text, words)?;
            if *verbose {
                text.push_str(" verbose")?;
            }
            Ok(())
        }
    }
}

fn put_refusal(text: &mut String, error: &Error) -> Result<(), AllocError> {
    if !error.use_stderr() {
        return text.push_str("help");
    }
    let kind = error.kind();
    write!(text, "refused {kind:?}")
}

fn put_words(text: &mut String, words: &Words) -> Result<(), AllocError> {
    match words {
        Words::Version => text.push_str("version"),
        Words::Serve(serve) => put_serve(text, serve),
        Words::Audit(audit) => put_audit(text, audit),
        Words::Drill(drill) => put_drill(text, drill),
        Words::Host(host) => put_host(text, host),
        Words::Check(check) => put_check(text, check),
        Words::Draw(draw) => put_draw(text, draw),
        Words::Page(page) => put_page(text, page),
    }
}

fn put_serve(text: &mut String, words: &ServeWords) -> Result<(), AllocError> {
    text.push_str("serve")?;
    put_desk(text, words)?;
    put_lines(text, words.lines, LinesVersion::One)?;
    put_number(text, "history", words.history, 1_000_000)
}

fn put_desk(text: &mut String, words: &ServeWords) -> Result<(), AllocError> {
    put_file(text, "map", words.map)?;
    put_file(text, "scen", words.scen)?;
    put_number(text, "agents", words.agents, 0)?;
    put_number(text, "limit", words.limit, 100_000)?;
    put_mode(text, words.mode)?;
    put_file(text, "journal", words.journal)?;
    put_file(text, "save", words.save)?;
    put_file(text, "log", words.log)?;
    if words.is_synced {
        Ok(())
    } else {
        text.push_str(" sync=off")
    }
}

// What an audit and a drill begin with.
fn put_opening(
    text: &mut String,
    map: &str,
    scen: Option<&str>,
    agents: u32,
    mode: Mode,
) -> Result<(), AllocError> {
    put_file(text, "map", Some(map))?;
    put_file(text, "scen", scen)?;
    put_number(text, "agents", agents, 0)?;
    put_mode(text, mode)
}

fn put_audit(text: &mut String, words: &AuditWords) -> Result<(), AllocError> {
    text.push_str("audit")?;
    put_opening(text, words.map, words.scen, words.agents, words.mode)?;
    put_file(text, "journal", words.journal)?;
    put_number(text, "workers", words.workers, 4)
}

fn put_drill(text: &mut String, words: &DrillWords) -> Result<(), AllocError> {
    text.push_str("drill")?;
    put_opening(text, words.map, words.scen, words.agents, words.mode)?;
    put_lines(text, words.lines, LinesVersion::One)?;
    put_number(text, "history", words.history, 1_000_000)?;
    put_number(text, "workers", words.workers, 4)?;
    for script in words.scripts.as_slice() {
        put_file(text, "script", Some(*script))?;
    }
    Ok(())
}

fn put_host(text: &mut String, words: &HostWords) -> Result<(), AllocError> {
    text.push_str("host")?;
    put_desk(text, &words.desk)?;
    put_lines(text, words.desk.lines, LinesVersion::Two)?;
    put_number(text, "history", words.desk.history, 1_000_000)?;
    put_given(text, "wait", words.wait)?;
    put_number(text, "workers", words.workers, 4)?;
    for name in words.names.as_slice() {
        put_file(text, "name", Some(*name))?;
    }
    Ok(())
}

fn put_check(text: &mut String, words: &CheckWords) -> Result<(), AllocError> {
    text.push_str("check")?;
    put_file(text, "map", Some(words.map))?;
    put_file(text, "paths", Some(words.paths))?;
    for file in words.more.as_slice() {
        put_file(text, "more", Some(file))?;
    }
    put_file(text, "scen", words.scen)?;
    put_given(text, "agents", words.agents)?;
    put_mode(text, words.mode)?;
    put_form(text, words.form)?;
    put_kinds(text, words.kinds)?;
    put_number(text, "workers", words.workers, 4)?;
    if words.quiet {
        text.push_str(" quiet")?;
    }
    if words.only {
        text.push_str(" only")?;
    }
    if words.is_json {
        text.push_str(" json")?;
    }
    if words.own_cells {
        text.push_str(" own-cells")?;
    }
    Ok(())
}

fn put_draw(text: &mut String, words: &DrawWords) -> Result<(), AllocError> {
    text.push_str("draw")?;
    put_file(text, "map", Some(words.map))?;
    put_file(text, "scen", words.scen)?;
    put_given(text, "agents", words.agents)?;
    put_mode(text, words.mode)?;
    put_file(text, "journal", words.journal)?;
    put_file(text, "paths", words.paths)?;
    put_given(text, "at", words.at)?;
    put_shown(text, words.shown)?;
    match words.kinds {
        Some(kinds) => put_all_kinds(text, kinds),
        None => Ok(()),
    }
}

fn put_page(text: &mut String, words: &PageWords) -> Result<(), AllocError> {
    text.push_str("page")?;
    put_file(text, "map", Some(words.map))?;
    put_file(text, "scen", words.scen)?;
    put_given(text, "agents", words.agents)?;
    put_mode(text, words.mode)?;
    put_file(text, "journal", words.journal)?;
    put_file(text, "paths", words.paths)?;
    put_kinds(text, words.kinds)?;
    put_file(text, "title", words.title)
}
