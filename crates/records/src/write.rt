ghost use Rattle.std.specs.Prelude.{◌≡◌, [], ◌∷◌, ◌++◌};
ghost use Rattle.outline.specs.Plain.{plain};
ghost use Rattle.records.specs.Bytes.{word};
ghost use Rattle.records.specs.Reading.{all_kinds};
ghost use Rattle.records.specs.Numbered.{Recorded, Records, KnownBack};
ghost use Rattle.records.specs.Writing.{vertices as vertices_of, Writes, ReadsBack};

use super::corners::Corners;
use super::written::Written;
use coding::{Coder, Kind};
use outline::{Outline, Point, Refusal};

// The bytes of a record before its codes; `size` counts those after the first two.
fn head_bytes(size: u16, kind: u16, start: Point, edges: u8) -> [u8; 9]
    ensures { result ≡ word size ++ (word kind ++ (word start.col ++ (word start.row ++ (edges ∷ [])))) }
{
    let [l0, l1] = size.to_le_bytes();
    let [k0, k1] = kind.to_le_bytes();
    let [c0, c1] = start.col.to_le_bytes();
    let [r0, r1] = start.row.to_le_bytes();
    [l0, l1, k0, k1, c0, c1, r0, r1, edges]
}

// Writes the record of a polygon's vertices, by the coder of its kind.
pub fn write_kind<C: Coder>(
    kind: u16,
    coder: &C,
    outline: &Outline,
    list: &[u16],
    buffer: &mut [u8],
) -> Result<Written, Refusal>
    ensures right { Writes (C.Coder.table coder.now) kind (plain outline.now).points list.now buffer.old buffer.new result }
    ensures back { ReadsBack (C.Coder.table coder.now) kind (vertices_of (plain outline.now).points list.now) buffer.new result }
    ensures recorded { Recorded (C.Coder.table coder.now) kind (plain outline.now).points list.now buffer.old buffer.new result }
{
    let corners = Corners::of(outline, list).ok_or(Refusal::NoPolygon)?;
    let bits = corners.code_bits(coder).ok_or(Refusal::EdgeNoCode)?;
    let bytes = 9 + (bits + 7) / 8;
    if buffer.len() < bytes {
        return Err(Refusal::BufferShort);
    }
    let head = head_bytes((bytes - 2) as u16, kind, corners.start(), corners.edges());
    buffer[0..9].copy_from_slice(&head);
    corners.write_codes(coder, &mut buffer[9..bytes]);
    Ok(Written { bytes, bits })
}

// Writes the record of a polygon's vertices, of kind 1 to 5.
pub fn record(
    outline: &Outline,
    kind: u16,
    list: &[u16],
    buffer: &mut [u8],
) -> Result<Written, Refusal>
    ensures right { Records (all_kinds kind) kind (plain outline.now).points list.now buffer.old buffer.new result }
    ensures back { KnownBack all_kinds kind (vertices_of (plain outline.now).points list.now) buffer.new result }
{
    let coder = Kind::try_from(kind)?;
    write_kind(kind, &coder, outline, list, buffer)
}
