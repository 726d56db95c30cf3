ghost use Rattle.std.specs.Prelude.{◌≡◌, pos, ◌+ℤ◌};
ghost use Rattle.outline.specs.Between.{cols as cols_to, rows as rows_to};
ghost use Rattle.outline.specs.Directions.{direction_number};
ghost use Rattle.outline.specs.Moves.{displaced as displaced_in, moved as moved_in, within};

use super::direction::Direction;
use super::point::Point;

// What directions 0 to 7 add to column and row. Extend and the coders take their moves from here.
pub const MOVES: [(i16, i16); 8] = [
    (1, 0),
    (1, -1),
    (0, -1),
    (-1, -1),
    (-1, 0),
    (-1, 1),
    (0, 1),
    (1, 1),
];

// A column or row moved by `by`, where that is still below `end`.
fn shifted(at: u16, by: i16, end: u16) -> Option<u16>
    ensures { result ≡ within end (pos at +ℤ by) }
{
    let to = u16::try_from(at as i32 + by as i32).ok()?;
    (to < end).then_some(to)
}

impl Point {
    // How many columns another point lies to the right, and how many rows below.
    pub fn offset(self, to: Point) -> (i32, i32)
        ensures { result ≡ (cols_to self to, rows_to self to) }
    {
        (
            to.col as i32 - self.col as i32,
            to.row as i32 - self.row as i32,
        )
    }

    // The point with columns and rows added, where that lies in a frame.
    pub fn displaced(self, cols: i16, rows: i16, width: u16, height: u16) -> Option<Point>
        ensures { result ≡ displaced_in width height self cols rows }
    {
        let col = shifted(self.col, cols, width)?;
        let row = shifted(self.row, rows, height)?;
        Some(Point { col, row })
    }

    // The point moved by a direction, where that lies in a frame.
    pub(crate) fn moved(self, direction: Direction, width: u16, height: u16) -> Option<Point>
        ensures { result ≡ moved_in width height self (direction_number direction) }
    {
        let (cols, rows) = direction.step();
        self.displaced(cols, rows, width, height)
    }
}
