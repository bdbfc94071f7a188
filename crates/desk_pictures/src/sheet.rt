//! How large a picture is and its parts are.
#![tactic(auto, using(crate::proofs::Growth::growths))]

ghost use Rattle.std.specs.Prelude.{OnOk, ◌≡◌, ◌||◌, is_err};
ghost use Rattle.desk_pictures.specs.Growth.{Grows};

use crate::pieces::{Piece, Written, put_filled};
use desk_report::Sink;
use grid_cells::Size;

// The greater side of the drawn map.
const MAP_SIDE: u32 = 960;
// The room beside the map, for the key.
const KEY_ROOM: u32 = 480;
/// The room above the map and at its left, for the numbers of columns and rows.
pub(crate) const EDGE: u32 = 36;
// The height of the key.
const KEY_HEIGHT: u32 = 640;

/// The sizes of a picture: of the map in the units of the sheet, and of signs in cells.
#[derive(Clone, Copy)]
pub(crate) struct Sheet {
    /// How wide the map is drawn.
    pub across: u32,
    /// How high the map is drawn.
    pub down: u32,
    /// How large signs are, in thousandths of a cell: on large maps larger than a cell.
    pub scale: u32,
}

impl Sheet {
    /// The sheet for a map of that size.
    pub(crate) fn new(size: Size) -> Sheet {
        let (width, height) = (size.width(), size.height());
        let side = width.max(height).max(1);
        Sheet {
            across: (MAP_SIDE * width / side).max(1),
            down: (MAP_SIDE * height / side).max(1),
            scale: (600 + side * 6).max(side * 12),
        }
    }

    /// So many hundredths of a sign's size.
    pub(crate) fn part<'a>(self, hundredths: u32) -> Piece<'a> {
        Piece::Thousandths(u64::from(self.scale) * u64::from(hundredths) / 100)
    }

    /// Puts the picture's first tag.
    pub(crate) fn put_first<W: Sink>(self, sink: &mut W) -> Written
        ensures ok { OnOk result (Grows (W.held sink.old) (W.held sink.new)) }
        ensures broken { W.broken sink.new ≡ (W.broken sink.old || is_err result) }
    {
        let across = u64::from(self.across) + u64::from(KEY_ROOM);
        let down = (u64::from(self.down) + 64).max(u64::from(KEY_HEIGHT));
        put_filled(
            sink,
            b"<svg xmlns='http://www.w3.org/2000/svg' role='img' viewBox='0 0 ~ ~'>\n",
            &[Piece::Number(across), Piece::Number(down)],
        )
    }

    /// Puts the tag of the map's part, in which a cell's middle is at its column and row.
    pub(crate) fn put_map<W: Sink>(self, sink: &mut W, size: Size) -> Written
        ensures ok { OnOk result (Grows (W.held sink.old) (W.held sink.new)) }
        ensures broken { W.broken sink.new ≡ (W.broken sink.old || is_err result) }
    {
        let pieces = [
            Piece::Count(EDGE),
            Piece::Count(EDGE),
            Piece::Count(self.across),
            Piece::Count(self.down),
            Piece::Count(size.width()),
            Piece::Count(size.height()),
        ];
        put_filled(
            sink,
            b"<svg overflow='visible' x='~' y='~' width='~' height='~' viewBox='-.5 -.5 ~ ~'>\n",
            &pieces,
        )
    }
}
