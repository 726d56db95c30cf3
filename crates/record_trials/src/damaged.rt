// Good records, damaged: each is refused, or is the record of what it reads as.
use super::told::{Told, reads};
use super::traced::{BLANK, NOWHERE, corner, everyone, nowhere, traced};
use coding::{BitRow, Coder, Kind};
use outline::{Direction, Outline, Point, Refusal};
use records::{read, record};
use std::alloc::{AllocError, Global};
use std::cmp::Ordering;
use std::process::Abort;
use std::test::Fail;

fn toward(from: Point, to: Point) -> Direction {
    match (to.col.cmp(&from.col), to.row.cmp(&from.row)) {
        (Ordering::Greater, Ordering::Less) => Direction::Northeast,
        (Ordering::Greater, Ordering::Equal) => Direction::East,
        (Ordering::Greater, Ordering::Greater) => Direction::Southeast,
        (Ordering::Equal, Ordering::Less) => Direction::North,
        (Ordering::Equal, _) => Direction::South,
        (Ordering::Less, Ordering::Less) => Direction::Northwest,
        (Ordering::Less, Ordering::Equal) => Direction::West,
        (Ordering::Less, Ordering::Greater) => Direction::Southwest,
    }
}

// Goes on to a point, by way of another where it is the last already.
fn reach(outline: &mut Outline, from: Point, to: Point) -> Result<(), Refusal> {
    if from == to && outline.extend(0).is_err() {
        outline.extend(4)?;
    }
    for _ in 0..256u16 {
        let at = *outline.points().last().ok_or(Refusal::NoPolygon)?;
        if at == to {
            return Ok(());
        }
        outline.extend(toward(at, to).into())?;
    }
    Err(Refusal::Full)
}

// Goes on through all vertices after the first, and answers their point numbers.
fn numbers(outline: &mut Outline, vertices: &[Point]) -> Result<[u16; 256], Refusal> {
    let mut list = [0u16; 256];
    for (ends, place) in vertices.windows(2).zip(list.iter_mut().skip(1)) {
        reach(outline, ends[0], ends[1])?;
        *place = (outline.len() - 1) as u16;
    }
    Ok(list)
}

// Whether these bytes are what is written of some vertices by an outline through them. Refused where they are too far apart for one.
fn is_rewritten(kind: u16, vertices: &[Point], bytes: &[u8]) -> Result<bool, Refusal> {
    let Some(start) = vertices.first() else {
        return Err(Refusal::NoPolygon);
    };
    let mut outline = Outline::new();
    outline.open(1024, 1024, start.col, start.row)?;
    let list = numbers(&mut outline, vertices)?;
    let list = &list[..vertices.len().min(256)];
    let mut buffer = [BLANK; 64];
    let written = record(&outline, kind, list, &mut buffer)?;
    Ok(buffer.get(..written.bytes) == Some(bytes))
}

// Passes where the codes of some vertices, one after the other, and zero bits to a whole byte are what follows a head.
fn check_spelled(coder: Kind, vertices: &[Point], codes: &[u8]) -> Option<()> {
    let mut row = BitRow::new(codes);
    for ends in vertices.windows(2) {
        let (dx, dy) = ends[0].offset(ends[1]);
        let (bits, n) = coder.code(i16::try_from(dx).ok()?, i16::try_from(dy).ok()?)?;
        if row.number(n)? != bits {
            return None;
        }
        row = row.skip(n as usize);
    }
    let padded = row.len() < 8 && row.number(row.len().min(7) as u8) == Some(0);
    padded.then_some(())
}

// What becomes of damaged bytes.
#[derive(Clone, Copy, PartialEq, Eq, Debug)]
enum Fate {
    Refused,
    // Read as vertices whose record, written again, is those bytes.
    Rewritten,
    // Likewise, but the vertices are too far apart for an outline.
    Spelled,
}

// None where they are read as what they are not.
fn fate_of(bytes: &[u8]) -> Option<Fate> {
    let mut list = [NOWHERE; 256];
    let Ok(reading) = read(bytes, &mut list) else {
        return nowhere(&list).then_some(Fate::Refused);
    };
    let coder = Kind::try_from(reading.kind).ok()?;
    let vertices = list.get(..reading.vertices)?;
    let record = bytes.get(..reading.bytes)?;
    check_spelled(coder, vertices, record.get(9..)?)?;
    match is_rewritten(reading.kind, vertices, record) {
        Ok(same) => same.then_some(Fate::Rewritten),
        Err(_) => Some(Fate::Spelled),
    }
}

// How many damaged records were read as others, of those that some edits of one give.
#[derive(Clone, Copy)]
struct Tally {
    rewritten: usize,
    spelled: usize,
}

impl Tally {
    fn note(&mut self, fate: Fate) {
        match fate {
            Fate::Refused => {}
            Fate::Rewritten => self.rewritten = self.rewritten.saturating_add(1),
            Fate::Spelled => self.spelled = self.spelled.saturating_add(1),
        }
    }
}

// With each bit turned.
fn damage(rt: &impl Abort, good: &Vec<u8>, tally: &mut Tally) -> Result<(), Fail> {
    assert_eq!(rt; fate_of(good), Some(Fate::Rewritten));
    let mut bytes = good.clone()?;
    for (at, byte) in good.iter().enumerate() {
        for bit in 0..8u8 {
            bytes[at] = *byte ^ (0x80 >> bit);
            let Some(fate) = fate_of(&bytes) else {
                return Err(Fail::new("read as what it is not"));
            };
            tally.note(fate);
        }
        bytes[at] = *byte;
    }
    Ok(())
}

// With another length in front, which is below 256.
fn counted(mut bytes: Vec<u8>, length: u8) -> Vec<u8> {
    if let Some(low) = bytes.first_mut() {
        *low = length;
    }
    bytes
}

// Cut anywhere, and with a byte more.
fn cut(rt: &impl Abort, good: &Vec<u8>) -> Result<(), Fail> {
    for n in 0..good.len() {
        assert_eq!(rt; reads(&good[..n]), Err(Told::AtByte(6, 0)));
    }
    let length = *good.first().ok_or("no bytes")?;
    let mut shorter = good.clone()?;
    shorter.pop();
    let shorter = counted(shorter, length.saturating_sub(1));
    assert!(rt; reads(&shorter).is_err());
    for b in 0..=u8::MAX {
        let mut longer = good.clone()?;
        longer.push(b)?;
        // Not counted by the length, the byte is ignored.
        assert_eq!(rt; reads(&longer), Ok(()));
        let longer = counted(longer, length.saturating_add(1));
        assert!(rt; reads(&longer).is_err());
    }
    Ok(())
}

// The record of some vertices of an outline, where it has one.
fn written(
    alloc: Global,
    outline: &Outline,
    kind: u16,
    list: &[u16],
) -> Result<Option<Vec<u8>>, AllocError> {
    let mut bytes = vec![in alloc; BLANK; 64]?;
    let Ok(written) = record(outline, kind, list, &mut bytes) else {
        return Ok(None);
    };
    bytes.truncate(written.bytes);
    Ok(Some(bytes))
}

fn all_kinds(
    rt: &(impl Abort + AllocGlobal),
    outline: &Outline,
    list: &[u16],
    tally: &mut Tally,
) -> Result<usize, Fail> {
    let mut count = 0usize;
    for kind in 1..6u16 {
        if let Some(good) = written(rt.alloc(), outline, kind, list)? {
            damage(rt, &good, tally)?;
            cut(rt, &good)?;
            count = count.saturating_add(1);
        }
    }
    Ok(count)
}

#[test]
fn damaged_records(rt: HostRuntime) -> Result<(), Fail> {
    let mut tally = Tally {
        rewritten: 0,
        spelled: 0,
    };
    let list = everyone();
    let l = corner()?;
    assert_eq!(rt; all_kinds(&rt, &l, &list[0..5], &mut tally)?, 5);
    assert_eq!(rt; all_kinds(&rt, &l, &[0, 4], &mut tally)?, 3);
    assert_eq!(rt; all_kinds(&rt, &l, &[0, 2, 4], &mut tally)?, 4);
    let ring = traced(&[0, 7, 6, 5, 4, 3, 2, 1])?;
    assert_eq!(rt; all_kinds(&rt, &ring, &list[0..9], &mut tally)?, 4);
    assert_eq!(rt; all_kinds(&rt, &ring, &[0, 3, 8], &mut tally)?, 3);
    assert_eq!(rt; all_kinds(&rt, &ring, &[0, 8], &mut tally)?, 2);
    let point = traced(&[])?;
    assert_eq!(rt; all_kinds(&rt, &point, &list[0..1], &mut tally)?, 5);
    assert!(rt; tally.rewritten > 100 && tally.spelled > 0);
    Ok(())
}
