ghost use Rattle.std.specs.Prelude.{◌<◌, ◌∷◌, length};
ghost use Rattle.coding.specs.Rows.{row_bits};
ghost use Rattle.records.specs.Reading.{Inside};
ghost use Rattle.records.specs.Steps.{Stepped, Traversed};

use super::fault::{CoderFault, Fault};
use coding::{BitRow, Coder};
use outline::{LONGEST_SIDE, Point};

// The vertex that the next code leads to from another, with the code's length.
fn next_vertex<C: Coder>(coder: &C, row: BitRow<'_>, from: Point) -> Result<(Point, u8), CoderFault>
    ensures { Stepped (C.Coder.table coder.now) (row_bits row.entry) from result }
{
    let Some((dx, dy, length)) = coder.read(row) else {
        return Err(CoderFault::NoCode);
    };
    let to = from
        .displaced(dx, dy, LONGEST_SIDE, LONGEST_SIDE)
        .ok_or(CoderFault::Outside)?;
    Ok((to, length))
}

// Reads a vertex after the start into each place, and answers how many bits their codes take.
pub(crate) fn read_edges<C: Coder>(
    coder: &C,
    row: BitRow<'_>,
    start: Point,
    places: &mut [Point],
) -> Result<usize, Fault>
    requires inside { Inside start }
    requires few { length places.old < 256 }
    ensures { Traversed (C.Coder.table coder.now) (row_bits row.entry) start (length places.old) (start ∷ places.new) result }
{
    let mut from = start;
    let mut bit = 0;
    for (e, place) in places.iter_mut().enumerate() {
        let edge = (e + 1) as u8;
        let (to, length) = next_vertex(coder, row.skip(bit), from).map_err(|fault| Fault::Code {
            fault,
            edge,
            bit,
        })?;
        *place = to;
        from = to;
        bit += length as usize;
    }
    Ok(bit)
}
