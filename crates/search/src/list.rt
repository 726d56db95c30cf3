// The list that the rows of an outline's points lead to.
ghost use Rattle.std.specs.Prelude.{length};
ghost use Rattle.outline.specs.Plain.{plain};
ghost use Rattle.search.specs.Rules.{ReadOut};

use crate::Found;
use graph::{Row, read_back};
use outline::Outline;

// Writes the list read back from the last point, whatever the rows hold, if there is one and it fits.
pub fn read_list<C: Copy>(outline: &Outline, rows: &[Row<C>], list: &mut [u16]) -> Option<Found<C>>
    ensures { ReadOut (length (plain outline.now).points) rows.now list.old list.new result }
{
    let last = outline.len() - 1;
    let vertices = read_back(rows, last, list)?;
    let row = rows[last];
    Some(Found {
        vertices,
        cost: row.cost,
    })
}
