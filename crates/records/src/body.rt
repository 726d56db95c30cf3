ghost use Rattle.std.specs.Prelude.{◌≡◌, ◌+◌, ◌-◌, ◌^◌, length, take, MatchResult};
ghost use Rattle.coding.specs.Bits.{bits_of};
ghost use Rattle.coding.specs.Rows.{row_bits};
ghost use Rattle.records.specs.Reading.{Padding};
ghost use Rattle.records.specs.Steps.{BodyRead, RecordRead};

use super::edges::read_edges;
use super::fault::{BitFault, Fault, HeadFault};
use super::head::Head;
use super::reading::Reading;
use coding::{BitRow, Coder};
use outline::{LONGEST_SIDE, Point};

// After the last code there are only zero bits, too few for a byte.
fn padding(row: BitRow<'_>) -> Result<(), BitFault>
    ensures { MatchResult result (λ _. Padding (row_bits row.entry)) (λ _. Padding (row_bits row.entry) → ⊥) }
{
    if row.len() < 8 && row.number(row.len() as u8) == Some(0) {
        Ok(())
    } else {
        Err(BitFault::Trailing)
    }
}

// Reads the start and the codes; the list is written only once nothing can refuse any more.
pub(crate) fn read_body<C: Coder>(
    coder: &C,
    head: Head<'_>,
    list: &mut [Point],
) -> Result<usize, Fault>
    ensures { BodyRead (C.Coder.table coder.now) (take (2 ^ 64 - 1) (bits_of head.entry.codes.now)) head.entry.start head.entry.edges list.old list.new result }
{
    if head.start.col >= LONGEST_SIDE {
        return Err(Fault::Head(HeadFault::Column));
    }
    if head.start.row >= LONGEST_SIDE {
        return Err(Fault::Head(HeadFault::Row));
    }
    let edge = head.edges;
    let vertices = edge as usize + 1;
    let mut at = [head.start; 256];
    let row = BitRow::new(head.codes);
    let bit = read_edges(coder, row, head.start, &mut at[1..vertices])?;
    padding(row.skip(bit)).map_err(|fault| Fault::End { fault, edge, bit })?;
    if list.len() < vertices {
        return Err(Fault::List);
    }
    list[0..vertices].copy_from_slice(&at[0..vertices]);
    Ok(vertices)
}

// Reads what follows the head of a record by the coder of its kind.
pub(crate) fn read_after_head<C: Coder>(
    coder: &C,
    head: Head<'_>,
    list: &mut [Point],
) -> Result<Reading, Fault>
    ensures { RecordRead (C.Coder.table coder.now) (take (2 ^ 64 - 1) (bits_of head.entry.codes.now)) head.entry.kind (length head.entry.codes.now + 9) head.entry.start head.entry.edges list.old list.new result }
{
    let kind = head.kind;
    let bytes = head.codes.len() + 9;
    let vertices = read_body(coder, head, list)?;
    Ok(Reading {
        kind,
        bytes,
        vertices,
    })
}
