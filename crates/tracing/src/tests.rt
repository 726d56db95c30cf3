use super::read::read_outline;
use outline::Refusal;
use records::{CoderFault, Fault, HeadFault};
use std::test::Fail;

const L: [u8; 11] = [9, 0, 4, 0, 5, 0, 5, 0, 4, 0x03, 0x60];

fn number(bytes: &[u8]) -> u8 {
    match read_outline(bytes) {
        Ok(_) => 0,
        Err(fault) => Refusal::from(fault).number(),
    }
}

// The byte of a fault of the head, or 255.
fn byte(bytes: &[u8]) -> u8 {
    match read_outline(bytes) {
        Err(Fault::Head(fault)) => fault.byte(),
        _ => 255,
    }
}

// Edge and bit of a fault in the codes, or 255 and 255.
fn place(bytes: &[u8]) -> (u8, usize) {
    match read_outline(bytes) {
        Err(Fault::Code { edge, bit, .. }) => (edge, bit),
        Err(Fault::End { edge, bit, .. }) => (edge, bit),
        _ => (255, 255),
    }
}

fn is(p: (u8, usize), edge: u8, bit: usize) -> bool {
    p.0 == edge && p.1 == bit
}

#[test]
fn traces_an_l(rt: HostRuntime) -> Result<(), Fail> {
    match read_outline(&L) {
        Ok(o) => {
            assert!(rt; o.len() == 5 && o.width() == 1024);
            match o.point(4) {
                Some(p) => {
                    assert!(rt; p.col == 7 && p.row == 7);
                    Ok(())
                },
                None => Err(Fail::new("no last point")),
            }
        }
        Err(_) => Err(Fail::new("refused")),
    }
}

#[test]
fn refuses_damaged_heads(rt: HostRuntime) {
    assert!(rt; number(&[]) == 6 && number(&[9]) == 6 && byte(&[9]) == 0);
    assert!(rt; number(&[6, 0, 4, 0, 5, 0, 5, 0, 0]) == 6);
    assert!(rt; number(&L[0..10]) == 6);
    assert!(rt;
        number(&[7, 0, 3, 0, 5, 0, 5, 0, 0]) == 7 && byte(&[7, 0, 3, 0, 0, 4, 5, 0, 0]) == 2
    );
    assert!(rt;
        number(&[7, 0, 4, 0, 0, 4, 0, 4, 0]) == 8 && byte(&[7, 0, 4, 0, 0, 4, 0, 4, 0]) == 4
    );
    assert!(rt;
        number(&[7, 0, 4, 0, 255, 3, 0, 4, 0]) == 8 && byte(&[7, 0, 4, 0, 255, 3, 0, 4, 0]) == 6
    );
    assert!(rt; number(&[7, 0, 4, 0, 255, 3, 255, 3, 0]) == 0);
}

#[test]
fn refuses_damaged_codes(rt: HostRuntime) {
    // A fifth edge where only four bits are left.
    let more = [9, 0, 4, 0, 5, 0, 5, 0, 6, 0x03, 0x60];
    assert!(rt; number(&more) == 9 && is(place(&more), 6, 15));
    // West from column 0.
    let west = [8, 0, 4, 0, 0, 0, 5, 0, 2, 0x50];
    assert!(rt; number(&west) == 8 && is(place(&west), 2, 3));
    // A set bit after the last code, and a whole byte too many.
    let set = [9, 0, 4, 0, 5, 0, 5, 0, 4, 0x03, 0x61];
    assert!(rt; number(&set) == 10 && is(place(&set), 4, 12));
    let long = [10, 0, 4, 0, 5, 0, 5, 0, 4, 0x03, 0x60, 0];
    assert!(rt; number(&long) == 10 && is(place(&long), 4, 12));
    let none = [8, 0, 4, 0, 5, 0, 5, 0, 0, 0];
    assert!(rt; number(&none) == 10 && is(place(&none), 0, 0));
}

#[test]
fn ignores_later_bytes(rt: HostRuntime) {
    assert!(rt; number(&[7, 0, 4, 0, 5, 0, 5, 0, 0, 1, 2, 3]) == 0);
}
