// Lent memory that is just enough, and one place too short.
use super::told::{Told, writes};
use super::traced::{BLANK, NOWHERE, corner, everyone, longest, nowhere, traced};
use outline::{Outline, Refusal};
use records::{Reading, Written, read, record};
use std::process::Abort;
use std::test::Fail;

// Whether reading into a list of some places is refused by 23 and leaves it.
fn list_refused(bytes: &[u8], places: usize) -> bool {
    let mut list = [NOWHERE; 256];
    let answer = read(bytes, &mut list[..places.min(256)]);
    answer.is_err_and(|fault| Refusal::from(fault).number() == 23) && nowhere(&list)
}

// Whether reading into as many places as there are points gives just these.
fn reads_back(record: &[u8], kind: u16, outline: &Outline) -> bool {
    let mut list = [NOWHERE; 256];
    let answer = read(record, &mut list[..outline.len().min(256)]);
    let right = Reading {
        kind,
        bytes: record.len(),
        vertices: outline.len(),
    };
    answer == Ok(right) && list.strip_prefix(outline.points()).is_some_and(nowhere)
}

// All points of an outline: buffer and list that are exactly long enough, and one short.
fn exactly(
    rt: &(impl Abort + AllocGlobal),
    outline: &Outline,
    kind: u16,
    bytes: usize,
    bits: usize,
) -> Result<(), Fail> {
    let everyone = everyone();
    let n = outline.len();
    let list = &everyone[..n.min(256)];
    let mut buffer = vec![in rt.alloc(); BLANK; bytes]?;
    assert_eq!(rt;
        record(outline, kind, list, &mut buffer),
        Ok(Written { bytes, bits })
    );
    let short = bytes.saturating_sub(1);
    assert_eq!(rt; writes(outline, kind, list, short), Err(Told::Alone(25)));
    assert!(rt; reads_back(&buffer, kind, outline));
    assert!(rt; list_refused(&buffer, n.saturating_sub(1)) && list_refused(&buffer, 0));
    Ok(())
}

#[test]
fn two_hundred_and_fifty_six_vertices(rt: HostRuntime) -> Result<(), Fail> {
    let outline = longest()?;
    assert!(rt; outline.len() == 256);
    exactly(&rt, &outline, 1, 711, 5610)?;
    exactly(&rt, &outline, 2, 169, 1275)?;
    exactly(&rt, &outline, 3, 264, 2040)?;
    exactly(&rt, &outline, 4, 105, 765)?;
    exactly(&rt, &outline, 5, 201, 1530)
}

#[test]
fn one_vertex(rt: HostRuntime) -> Result<(), Fail> {
    let outline = traced(&[])?;
    for kind in 1..6u16 {
        exactly(&rt, &outline, kind, 9, 0)?;
    }
    Ok(())
}

#[test]
fn five_vertices(rt: HostRuntime) -> Result<(), Fail> {
    let outline = corner()?;
    exactly(&rt, &outline, 1, 20, 88)?;
    exactly(&rt, &outline, 2, 12, 20)?;
    exactly(&rt, &outline, 3, 13, 32)?;
    exactly(&rt, &outline, 4, 11, 12)?;
    exactly(&rt, &outline, 5, 12, 24)
}
