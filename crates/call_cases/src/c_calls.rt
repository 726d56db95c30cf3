use super::samples::{CORNER, ENDS, L, STEP};
use exchange::MOST_BYTES;
use firmware::{polygon_cheapest, polygon_closest, polygon_read};
use outline::Point;
use records::{Reading, Written};

// What a place for sizes holds before.
const BEFORE: Written = Written { bytes: 3, bits: 4 };

// What a list and a place for what was read hold before.
const NOWHERE: Point = Point { col: 8, row: 9 };

const UNREAD: Reading = Reading {
    kind: 7,
    bytes: 7,
    vertices: 7,
};

// The answer of a call that is lent a buffer of nine bytes, or none where it changes memory.
fn refused<C: FnOnce(&mut [u8], &mut Written) -> i32>(call: C) -> Option<i32>
    requires { C.IsAlwaysCallable call }
{
    let mut buffer = [7; 9];
    let mut written = BEFORE;
    let answer = call(&mut buffer, &mut written);
    (buffer == [7; 9] && written == BEFORE).then_some(answer)
}

// By line.
fn cheapest_refused(chain: &[u8], kind: u16, top: u64, bottom: u64) -> Option<i32> {
    refused(|buffer, written| polygon_cheapest(chain, kind, false, top, bottom, buffer, written))
}

// By pace.
fn closest_refused(chain: &[u8], kind: u16, budget: u16) -> Option<i32> {
    refused(|buffer, written| polygon_closest(chain, kind, true, budget, buffer, written))
}

// The answer of read, with a list of two places, or none where it changes memory.
fn read_refused(bytes: &[u8]) -> Option<i32> {
    let mut list = [NOWHERE; 2];
    let mut reading = UNREAD;
    let answer = polygon_read(bytes, &mut list, &mut reading);
    (list == [NOWHERE; 2] && reading == UNREAD).then_some(answer)
}

#[test]
fn cheapest_writes_a_record(rt: HostRuntime) {
    let mut buffer = [7; MOST_BYTES];
    let mut written = BEFORE;
    assert!(rt; polygon_cheapest(&L, 2, false, 2, 1, &mut buffer, &mut written) == 0);
    assert_eq!(rt; written, Written { bytes: 10, bits: 6 });
    assert!(rt; buffer.starts_with(&ENDS) && buffer[10] == 7);
    assert!(rt; polygon_cheapest(&L, 2, true, 1, 1, &mut buffer, &mut written) == 0);
    assert_eq!(rt;
        written,
        Written {
            bytes: 11,
            bits: 12
        }
    );
    assert!(rt; buffer.starts_with(&CORNER));
}

#[test]
fn closest_writes_a_record(rt: HostRuntime) {
    let mut buffer = [7; 11];
    let mut written = BEFORE;
    assert!(rt; polygon_closest(&L, 2, false, 11, &mut buffer, &mut written) == 0);
    assert_eq!(rt; written, Written { bytes: 10, bits: 6 });
    assert!(rt; buffer.starts_with(&ENDS) && buffer[10] == 7);
    assert!(rt; polygon_closest(&L, 2, true, 12, &mut buffer, &mut written) == 0);
    assert_eq!(rt;
        written,
        Written {
            bytes: 11,
            bits: 12
        }
    );
    assert!(rt; buffer == CORNER);
}

#[test]
fn cheapest_is_refused(rt: HostRuntime) {
    assert!(rt; cheapest_refused(&[], 6, 1, 0) == Some(-7));
    assert!(rt; cheapest_refused(&[], 3, 1, 0) == Some(-6));
    assert!(rt; cheapest_refused(&ENDS, 3, 1, 0) == Some(-7));
    assert!(rt; cheapest_refused(&STEP, 3, 1, 0) == Some(-4));
    assert!(rt; cheapest_refused(&STEP, 3, 2, 1) == Some(-26));
    assert!(rt; cheapest_refused(&L, 2, 2, 1) == Some(-25));
}

#[test]
fn closest_is_refused(rt: HostRuntime) {
    assert!(rt; closest_refused(&[], 0, 0) == Some(-7));
    assert!(rt; closest_refused(&[9], 3, 0) == Some(-6));
    assert!(rt; closest_refused(&CORNER, 3, 0) == Some(-7));
    assert!(rt; closest_refused(&STEP, 3, 0) == Some(-26));
    assert!(rt; closest_refused(&L, 2, 5) == Some(-27));
    assert!(rt; closest_refused(&L, 2, 6) == Some(-25));
}

#[test]
fn read_fills_a_list(rt: HostRuntime) {
    let mut list = [NOWHERE; 3];
    let mut reading = UNREAD;
    assert!(rt; polygon_read(&ENDS, &mut list, &mut reading) == 0);
    assert_eq!(rt;
        reading,
        Reading {
            kind: 2,
            bytes: 10,
            vertices: 2
        }
    );
    let (first, last) = (Point { col: 5, row: 5 }, Point { col: 7, row: 7 });
    assert_eq!(rt; list, [first, last, NOWHERE]);
}

#[test]
fn read_is_refused(rt: HostRuntime) {
    assert!(rt; read_refused(&[]) == Some(-6));
    assert!(rt; read_refused(&[7, 0, 6, 0, 5, 0, 5, 0, 0]) == Some(-7));
    assert!(rt; read_refused(&[7, 0, 1, 0, 0, 4, 5, 0, 0]) == Some(-8));
    assert!(rt; read_refused(&[8, 0, 2, 0, 5, 0, 5, 0, 2, 0xe8]) == Some(-9));
    assert!(rt; read_refused(&[8, 0, 2, 0, 5, 0, 5, 0, 1, 0xe9]) == Some(-10));
    assert!(rt; read_refused(&CORNER) == Some(-23));
}
