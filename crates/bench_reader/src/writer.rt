ghost use Rattle.std.specs.Prelude.{◌≡◌, ◌*◌, ◌<◌, [], ◌∷◌, ◌++◌, decimal, drop, map, take, IfOk, OnOk};
ghost use Rattle.bench_reader.specs.MapText.{IsMapText};
ghost use Rattle.bench_reader.specs.MapSpelling.{map_spelling, header_lines, letter_of, spelled};

use grid_cells::{Grid, OutOfMemory, Size};
use itoa::Buffer;
use std::alloc::{AllocError, Global};

/// Writes a map's text: the header with single spaces, `.` for an open cell, `@` for a closed one,
/// and a line feed at the end of each line. It reads back as an equal grid.
pub fn write_map(alloc: Global, grid: &Grid) -> Result<Vec<u8>, OutOfMemory>
    ensures spelling { IfOk result (λ text. text.items ≡ map_spelling grid.now) }
    ensures reads { IfOk result (λ text. IsMapText text.items grid.now) }
{
    let size = grid.size();
    let mut text = Vec::new(alloc);
    if write_header(&mut text, size).is_err() {
        return Err(OutOfMemory);
    }
    for row in 0..size.height() {
        if write_row(&mut text, grid, row).is_err() {
            return Err(OutOfMemory);
        }
    }
    Ok(text)
}

fn write_header(text: &mut Vec<u8>, size: Size) -> Result<(), AllocError>
    ensures { OnOk result (text.new.items ≡ text.old.items ++ spelled (header_lines size)) }
{
    text.extend_from_slice(b"type octile\n")?;
    write_line(text, b"height ", size.height())?;
    write_line(text, b"width ", size.width())?;
    text.extend_from_slice(b"map\n")
}

// A line of a label and a number.
fn write_line(text: &mut Vec<u8>, label: &[u8], number: u32) -> Result<(), AllocError>
    ensures { OnOk result (text.new.items ≡ text.old.items ++ (label.now ++ decimal number ++ 10 ∷ [])) }
{
    let mut digits = Buffer::new();
    text.extend_from_slice(label)?;
    text.extend_from_slice(digits.format(number).as_bytes())?;
    text.extend_from_slice(b"\n")
}

fn write_row(text: &mut Vec<u8>, grid: &Grid, row: u32) -> Result<(), AllocError>
    requires { row < grid.now.size.height }
    ensures { OnOk result (text.new.items ≡ text.old.items
        ++ (map letter_of (take grid.now.size.width (drop (row * grid.now.size.width) grid.now.flags)) ++ 10 ∷ [])) }
{
    let size = grid.size();
    for col in 0..size.width() {
        let cell = size.cell(col, row).unwrap();
        if text.push(letter_of(grid.is_open(cell))).is_err() {
            return Err(AllocError);
        }
    }
    text.extend_from_slice(b"\n")
}

fn letter_of(free: bool) -> u8
    ensures { result ≡ letter_of free }
{
    if free { b'.' } else { b'@' }
}
