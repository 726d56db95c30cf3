ghost use Rattle.coding.specs.Kinds.{by_direction, chain_code};
ghost use Rattle.records.specs.Reading.{only, all_kinds, ReadRight, ReadExact};

use super::body::read_after_head;
use super::fault::{Fault, HeadFault};
use super::head::read_head;
use super::reading::Reading;
use coding::{Chain, Coder, Kind};
use outline::Point;

// Reads a record of kind 1 to 5.
pub fn read(bytes: &[u8], list: &mut [Point]) -> Result<Reading, Fault>
    ensures right { ReadRight all_kinds bytes.now list.old list.new result }
    ensures exact { ReadExact all_kinds bytes.now list.old list.new result }
{
    let head = read_head(bytes)?;
    let coder = Kind::try_from(head.kind).map_err(|_| HeadFault::Kind)?;
    read_after_head(&coder, head, list)
}

// Reads a record of one kind alone, by the coder of that kind.
pub fn read_kind<C: Coder>(
    kind: u16,
    coder: &C,
    bytes: &[u8],
    list: &mut [Point],
) -> Result<Reading, Fault>
    ensures right { ReadRight (only kind (C.Coder.table coder.now)) bytes.now list.old list.new result }
    ensures exact { ReadExact (only kind (C.Coder.table coder.now)) bytes.now list.old list.new result }
{
    let head = read_head(bytes)?;
    if head.kind != kind {
        return Err(Fault::Head(HeadFault::Kind));
    }
    read_after_head(coder, head, list)
}

// Reads a chain record, as the points of an outline.
pub fn read_chain(bytes: &[u8], list: &mut [Point]) -> Result<Reading, Fault>
    ensures right { ReadRight (only 4 (by_direction chain_code)) bytes.now list.old list.new result }
    ensures exact { ReadExact (only 4 (by_direction chain_code)) bytes.now list.old list.new result }
{
    read_kind(u16::from(Kind::Chain), &Chain, bytes, list)
}
