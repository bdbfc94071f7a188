//! How values of words are told.
use desk_report::Kinds;
use grid_cells::Agent;
use path_files::Form;
use plan_table::Mode;
use session_lines::LinesVersion;
use std::alloc::AllocError;

/// The least and the greatest agent that are shown, where they are named.
pub fn put_shown(text: &mut String, shown: Option<(Agent, Agent)>) -> Result<(), AllocError> {
    let Some((least, greatest)) = shown else {
        return Ok(());
    };
    let (least, greatest) = (least.number(), greatest.number());
    write!(text, " shown={least}-{greatest}")
}

/// A number, where it is given.
pub fn put_given(text: &mut String, name: &str, number: Option<u32>) -> Result<(), AllocError> {
    match number {
        None => Ok(()),
        Some(number) => write!(text, " {name}={number}"),
    }
}

/// The form of paths, where it is named.
pub fn put_form(text: &mut String, form: Option<Form>) -> Result<(), AllocError> {
    match form {
        None => Ok(()),
        Some(Form::ByTime) => text.push_str(" form=time"),
        Some(Form::ByAgent) => text.push_str(" form=agent"),
        Some(Form::BySession) => text.push_str(" form=session"),
        Some(Form::ByMoves) => text.push_str(" form=moves"),
        Some(Form::ByFlippedMoves) => text.push_str(" form=flipped"),
        Some(Form::ByJson) => text.push_str(" form=json"),
        Some(Form::BySchedule) => text.push_str(" form=schedule"),
    }
}

/// The kinds; none where they are those of the classical problem.
pub fn put_kinds(text: &mut String, kinds: Kinds) -> Result<(), AllocError> {
    let others = kinds.edge || kinds.follow || kinds.cycle;
    if kinds.vertex && kinds.swap && !others {
        return Ok(());
    }
    put_all_kinds(text, kinds)
}

/// The kinds, in the order of a report's entries.
pub fn put_all_kinds(text: &mut String, kinds: Kinds) -> Result<(), AllocError> {
    put_kind(text, "vertex", kinds.vertex)?;
    put_kind(text, "edge", kinds.edge)?;
    put_kind(text, "follow", kinds.follow)?;
    put_kind(text, "swap", kinds.swap)?;
    put_kind(text, "cycle", kinds.cycle)
}

fn put_kind(text: &mut String, kind: &str, named: bool) -> Result<(), AllocError> {
    if named {
        put_file(text, "solves", Some(kind))
    } else {
        Ok(())
    }
}

/// A file or another word, where it is named.
pub fn put_file(text: &mut String, name: &str, file: Option<&str>) -> Result<(), AllocError> {
    match file {
        None => Ok(()),
        Some(file) => write!(text, " {name}={file}"),
    }
}

/// A number, where it isn't the usual one.
pub fn put_number(
    text: &mut String,
    name: &str,
    number: u32,
    usual: u32,
) -> Result<(), AllocError> {
    if number == usual {
        return Ok(());
    }
    write!(text, " {name}={number}")
}

/// The mode, where it isn't the usual one.
pub fn put_mode(text: &mut String, mode: Mode) -> Result<(), AllocError> {
    match mode {
        Mode::Stay => Ok(()),
        Mode::Disappear => text.push_str(" mode=disappear"),
    }
}

/// The version of lines, where it isn't the usual one.
pub fn put_lines(
    text: &mut String,
    lines: LinesVersion,
    usual: LinesVersion,
) -> Result<(), AllocError> {
    if lines == usual {
        return Ok(());
    }
    match lines {
        LinesVersion::One => text.push_str(" lines=1"),
        LinesVersion::Two => text.push_str(" lines=2"),
    }
}
