//! Values written as the lines of sessions write them. None stands for a text that is no such value,
//! and for want of memory.
use grid_cells::{Cell, Grid, Size};
use plan_table::{Plan, Row};
use scene_edits::{Edit, Scene, Thing};
use session_lines::{Request, read_line};
use std::alloc::Global;

/// The edit of a line, as `path 3 0,0 1,0`.
pub fn edit(alloc: Global, line: &str) -> Option<Edit> {
    match read_line(alloc, line.as_bytes()) {
        Ok(Request::Edit(edit)) => Some(edit),
        _ => None,
    }
}

/// The edits of lines.
pub fn edits(alloc: Global, lines: &[&str]) -> Option<Vec<Edit>> {
    let mut edits = Vec::new(alloc);
    for line in lines {
        edits.push(edit(alloc, line)?).ok()?;
    }
    Some(edits)
}

/// What a line watches, as `watch agent 0`.
pub fn thing(alloc: Global, line: &str) -> Option<Thing> {
    let request = read_line(alloc, line.as_bytes()).ok()?;
    match &request {
        Request::Watch(thing) => Some(*thing),
        _ => None,
    }
}

/// The cells of a path's line.
pub fn cells(alloc: Global, line: &str) -> Option<Vec<Cell>> {
    match edit(alloc, line)? {
        Edit::Path { cells, .. } => Some(cells.into_items()),
        _ => None,
    }
}

/// The plan of a path's line.
pub fn plan(alloc: Global, line: &str) -> Option<Plan> {
    Plan::new(cells(alloc, line)?).ok()
}

/// The row of that goal and of the plan of a path's line.
pub fn row(alloc: Global, goal: (u32, u32), line: &str) -> Option<Row> {
    Some(Row {
        goal: Cell::new(goal.0, goal.1)?,
        plan: plan(alloc, line)?,
    })
}

/// An open map of that width and height.
pub fn open_grid(alloc: Global, width: u32, height: u32) -> Option<Grid> {
    Grid::all_open(alloc, Size::new(width, height)?).ok()
}

/// The scene of an open map of that width and height after the edits of the lines, in mode Stay.
pub fn scene(alloc: Global, width: u32, height: u32, lines: &[&str]) -> Option<Scene> {
    let mut scene = Scene::bare(alloc, open_grid(alloc, width, height)?);
    let edits = edits(alloc, lines)?;
    let _changes = scene.apply_all(edits.as_slice()).ok()?;
    Some(scene)
}
