//! Cells beside places, each a column and a row.
use grid_cells::Cell;
use std::alloc::Global;

/// Whether the cells are those at the places.
pub fn are_at(cells: &[Cell], places: &[(u32, u32)]) -> bool {
    cells.len() == places.len()
        && cells
            .iter()
            .zip(places)
            .all(|(cell, place)| cell.x() == place.0 && cell.y() == place.1)
}

/// The cells at the places. None stands for a place that is no cell's, and for want of memory.
pub fn cells_at(alloc: Global, places: &[(u32, u32)]) -> Option<Vec<Cell>> {
    let mut cells = Vec::new(alloc);
    for (x, y) in places {
        cells.push(Cell::new(*x, *y)?).ok()?;
    }
    Some(cells)
}
