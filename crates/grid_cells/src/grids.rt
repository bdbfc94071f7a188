ghost use Rattle.std.specs.Prelude.{◌≡◌, ◌*◌, ◌↔◌, IsTrue, IfOk, length};
ghost use Rattle.grid_cells.specs.Size.{Holds};
ghost use Rattle.grid_cells.specs.Grid.{IsOpen, open_chart, with_cell};

use crate::cells::Cell;
use crate::memory::OutOfMemory;
use crate::sizes::Size;
use std::alloc::Global;
use std::marker::Model;

/// A map: which of its cells are open.
#[derive(Debug, Drop)]
pub struct Grid {
    size: Size,
    flags: Vec<bool>,
}

impl Model for Grid {
    ghost use Rattle.std.specs.Prelude.{◌≡◌, ◌*◌, length};
    ghost use Rattle.grid_cells.specs.Grid.{Chart};

    ghost Value = { Chart };

    ghost view = { λ g. record { size = g.size; flags = g.flags.items } };

    ghost invariant = { λ g. length g.flags.items ≡ g.size.width * g.size.height };
}

impl Grid {
    /// The map of that size with every cell open.
    pub fn all_open(alloc: Global, size: Size) -> Result<Grid, OutOfMemory>
        ensures { IfOk result (λ grid. grid ≡ open_chart size) }
    {
        let cells = size.width() as usize * size.height() as usize;
        let flags = vec![in alloc; true; cells]?;
        Ok(Grid { size, flags })
    }

    /// An equal map.
    pub fn copy(&self) -> Result<Grid, OutOfMemory>
        ensures { IfOk result (λ grid. grid ≡ self.now) }
    {
        let flags = self.flags.clone()?;
        Ok(Grid {
            size: self.size,
            flags,
        })
    }

    /// The columns and rows of the map.
    pub fn size(&self) -> Size
        ensures is { result ≡ self.now.size }
        ensures whole { length self.now.flags ≡ self.now.size.width * self.now.size.height }
    {
        self.size
    }

    /// Whether the cell is open.
    pub fn is_open(&self, cell: Cell) -> bool
        requires { Holds self.now.size cell }
        ensures { IsTrue result ↔ IsOpen self.now cell }
    {
        self.flags[self.size.index(cell)]
    }

    /// Opens the cell where `free`, and closes it otherwise.
    pub fn set(&mut self, cell: Cell, free: bool)
        requires { Holds self.old.size cell }
        ensures { self.new ≡ with_cell self.old cell free }
    {
        let at = self.size.index(cell);
        self.flags[at] = free;
    }
}
