//! Files of paths: their form, the starts, goals and number of agents that they tell, and each path with
//! all its cells.
use grid_cells::{Cell, List};
use path_files::{Form, SolverPaths, read_paths};
use std::alloc::{AllocError, Global};

/// The form of that name.
pub fn form_of(word: &str) -> Option<Form> {
    if word == "time" {
        Some(Form::ByTime)
    } else if word == "agent" {
        Some(Form::ByAgent)
    } else if word == "session" {
        Some(Form::BySession)
    } else if word == "moves" {
        Some(Form::ByMoves)
    } else if word == "flipped" {
        Some(Form::ByFlippedMoves)
    } else if word == "json" {
        Some(Form::ByJson)
    } else if word == "schedule" {
        Some(Form::BySchedule)
    } else {
        None
    }
}

fn name_of(form: Form) -> &'static str {
    match form {
        Form::ByTime => "time",
        Form::ByAgent => "agent",
        Form::BySession => "session",
        Form::ByMoves => "moves",
        Form::ByFlippedMoves => "flipped",
        Form::ByJson => "json",
        Form::BySchedule => "schedule",
    }
}

fn put_cells(told: &mut String, name: &str, cells: &[Cell]) -> Result<(), AllocError> {
    write!(told, " {name}")?;
    for cell in cells {
        let (x, y) = (cell.x(), cell.y());
        write!(told, " {x},{y}")?;
    }
    Ok(())
}

fn put_list(told: &mut String, name: &str, list: &Option<List<Cell>>) -> Result<(), AllocError> {
    match list {
        Some(cells) => put_cells(told, name, cells.items()),
        None => Ok(()),
    }
}

fn put_number(told: &mut String, name: &str, number: Option<u32>) -> Result<(), AllocError> {
    match number {
        Some(number) => write!(told, " {name} {number}"),
        None => Ok(()),
    }
}

fn put_read(told: &mut String, read: &SolverPaths) -> Result<(), AllocError> {
    told.push_str(name_of(read.form))?;
    put_list(told, "starts", &read.starts)?;
    put_list(told, "goals", &read.goals)?;
    put_number(told, "agents", read.agents)?;
    for path in read.paths.items() {
        put_cells(told, "path", path.items())?;
    }
    Ok(())
}

/// What a text of that form tells, or why it is no file of paths.
pub fn put_paths(
    alloc: Global,
    told: &mut String,
    text: &[u8],
    form: Option<Form>,
) -> Result<(), AllocError> {
    match read_paths(alloc, text, form, false) {
        Ok(read) => {
            let put = put_read(told, &read);
            drop(read);
            put
        }
        Err(fault) => write!(told, "{fault}"),
    }
}
