// Worked records, byte by byte.
use super::told::{Told, reads, writes};
use super::traced::{BLANK, NOWHERE, blank, corner};
use outline::Point;
use records::{Reading, Written, read, record};
use std::test::Fail;

const ENDS: [u8; 10] = [8, 0, 2, 0, 5, 0, 5, 0, 1, 0xE8];

const WHOLE: [u8; 11] = [9, 0, 4, 0, 5, 0, 5, 0, 4, 0x03, 0x60];

#[test]
fn first_and_last_by_run(rt: HostRuntime) -> Result<(), Fail> {
    let outline = corner()?;
    let mut buffer = [BLANK; 16];
    let written = record(&outline, 2, &[0, 4], &mut buffer)?;
    assert_eq!(rt; written, Written { bytes: 10, bits: 6 });
    assert!(rt; buffer.strip_prefix(&ENDS).is_some_and(blank));
    let mut list = [NOWHERE; 4];
    let reading = read(&buffer, &mut list)?;
    assert_eq!(rt;
        reading,
        Reading {
            kind: 2,
            bytes: 10,
            vertices: 2
        }
    );
    let (first, last) = (Point { col: 5, row: 5 }, Point { col: 7, row: 7 });
    assert_eq!(rt; list, [first, last, NOWHERE, NOWHERE]);
    Ok(())
}

#[test]
fn all_by_chain(rt: HostRuntime) -> Result<(), Fail> {
    let outline = corner()?;
    let mut buffer = [BLANK; 16];
    let written = record(&outline, 4, &[0, 1, 2, 3, 4], &mut buffer)?;
    assert_eq!(rt;
        written,
        Written {
            bytes: 11,
            bits: 12
        }
    );
    assert!(rt; buffer.strip_prefix(&WHOLE).is_some_and(blank));
    let mut list = [NOWHERE; 5];
    let reading = read(&WHOLE, &mut list)?;
    assert_eq!(rt;
        reading,
        Reading {
            kind: 4,
            bytes: 11,
            vertices: 5
        }
    );
    assert_eq!(rt; list[2], Point { col: 7, row: 5 });
    assert_eq!(rt; list[4], Point { col: 7, row: 7 });
    Ok(())
}

#[test]
fn faults_with_their_places(rt: HostRuntime) {
    assert_eq!(rt;
        reads(&[8, 0, 2, 0, 5, 0, 5, 0, 1, 0xE9]),
        Err(Told::AtBit(10, 1, 6))
    );
    assert_eq!(rt;
        reads(&[8, 0, 2, 0, 5, 0, 5, 0, 2, 0xE8]),
        Err(Told::AtBit(9, 2, 6))
    );
    // A whole byte too many, also without edges.
    assert_eq!(rt;
        reads(&[9, 0, 2, 0, 5, 0, 5, 0, 1, 0xE8, 0]),
        Err(Told::AtBit(10, 1, 6))
    );
    assert_eq!(rt;
        reads(&[8, 0, 2, 0, 5, 0, 5, 0, 0, 0]),
        Err(Told::AtBit(10, 0, 0))
    );
    // From column 0 to the left.
    assert_eq!(rt;
        reads(&[8, 0, 2, 0, 0, 0, 5, 0, 1, 0x80]),
        Err(Told::AtBit(8, 1, 0))
    );
    // A flat code for a displacement that has a run code, behind the bit for flat codes.
    assert_eq!(rt;
        reads(&[10, 0, 5, 0, 5, 0, 5, 0, 1, 0x80, 0x10, 0x00]),
        Err(Told::AtBit(9, 1, 0))
    );
}

#[test]
fn heads(rt: HostRuntime) {
    assert_eq!(rt; reads(&[6, 0, 2, 0, 5, 0, 5, 0]), Err(Told::AtByte(6, 0)));
    assert_eq!(rt; reads(&[7, 0, 2, 0, 5, 0, 5, 0]), Err(Told::AtByte(6, 0)));
    assert_eq!(rt;
        reads(&[7, 0, 0, 0, 5, 0, 5, 0, 0]),
        Err(Told::AtByte(7, 2))
    );
    assert_eq!(rt;
        reads(&[7, 0, 6, 0, 0, 4, 0, 4, 0]),
        Err(Told::AtByte(7, 2))
    );
    assert_eq!(rt;
        reads(&[7, 0, 1, 1, 5, 0, 5, 0, 0]),
        Err(Told::AtByte(7, 2))
    );
    assert_eq!(rt;
        reads(&[7, 0, 1, 0, 0, 4, 0, 4, 0]),
        Err(Told::AtByte(8, 4))
    );
    assert_eq!(rt;
        reads(&[7, 0, 1, 0, 255, 3, 0, 4, 0]),
        Err(Told::AtByte(8, 6))
    );
    for kind in 1..6u8 {
        assert_eq!(rt; reads(&[7, 0, kind, 0, 255, 3, 255, 3, 0, 99]), Ok(()));
    }
}

// Every string of up to two bytes.
#[test]
fn short_strings(rt: HostRuntime) {
    assert_eq!(rt; reads(&[]), Err(Told::AtByte(6, 0)));
    for a in 0..=u8::MAX {
        assert_eq!(rt; reads(&[a]), Err(Told::AtByte(6, 0)));
        for b in 0..=u8::MAX {
            assert_eq!(rt; reads(&[a, b]), Err(Told::AtByte(6, 0)));
        }
    }
}

// 7, then 5, then 28, then 25.
#[test]
fn writing_is_refused_in_order(rt: HostRuntime) -> Result<(), Fail> {
    let outline = corner()?;
    assert_eq!(rt; writes(&outline, 0, &[0, 3], 0), Err(Told::Alone(7)));
    assert_eq!(rt; writes(&outline, 6, &[0, 4], 800), Err(Told::Alone(7)));
    assert_eq!(rt; writes(&outline, 256, &[0, 4], 800), Err(Told::Alone(7)));
    assert_eq!(rt; writes(&outline, 3, &[0, 3], 0), Err(Told::Alone(5)));
    assert_eq!(rt; writes(&outline, 3, &[], 800), Err(Told::Alone(5)));
    assert_eq!(rt; writes(&outline, 3, &[1, 4], 800), Err(Told::Alone(5)));
    assert_eq!(rt;
        writes(&outline, 3, &[0, 2, 2, 4], 800),
        Err(Told::Alone(5))
    );
    assert_eq!(rt; writes(&outline, 3, &[0, 4, 5], 800), Err(Told::Alone(5)));
    assert_eq!(rt; writes(&outline, 3, &[0, 4], 0), Err(Told::Alone(28)));
    assert_eq!(rt; writes(&outline, 4, &[0, 1, 4], 800), Err(Told::Alone(28)));
    assert_eq!(rt; writes(&outline, 2, &[0, 4], 9), Err(Told::Alone(25)));
    assert_eq!(rt; writes(&outline, 2, &[0, 4], 10), Ok(()));
    Ok(())
}
