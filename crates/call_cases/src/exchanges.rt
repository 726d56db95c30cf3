use super::samples::{CORNER, ENDS, L, STEP};
use closest::Goal;
use exchange::{MOST_BYTES, Order, decode, encode};
use measure::Chosen;
use std::test::Fail;

const TWO: Goal = Goal::Tolerance { top: 2, bottom: 1 };

// The order of a kind and a goal, by line.
fn by_line(kind: u16, goal: Goal) -> Order {
    Order {
        kind,
        measure: Chosen::Line,
        goal,
    }
}

// Whether encode answers the record of these bytes.
fn gives(bytes: &[u8], order: Order, record: &[u8]) -> bool {
    let mut buffer = [0; MOST_BYTES];
    let answer = encode(bytes, order, &mut buffer);
    answer.is_ok_and(|written| buffer.get(..written.bytes) == Some(record))
}

// Whether encode, with a buffer of some bytes, is refused by this text.
fn refused(
    rt: &HostRuntime,
    bytes: &[u8],
    order: Order,
    room: &mut [u8],
    text: &str,
) -> Result<bool, Fail> {
    let Err(failure) = encode(bytes, order, room) else {
        return Ok(false);
    };
    let told = format!(in rt.alloc(); "{failure}")?;
    Ok(told.as_str() == text)
}

#[test]
fn encodes_an_l(rt: HostRuntime) {
    assert!(rt; gives(&L, by_line(2, TWO), &ENDS));
    assert!(rt; gives(&L, by_line(2, Goal::Budget(11)), &ENDS));
    assert!(rt; gives(&L, by_line(2, Goal::Budget(12)), &CORNER));
    let all = Goal::Tolerance { top: 0, bottom: 1 };
    assert!(rt; gives(&L, by_line(4, all), &L));
}

#[test]
fn refusals_come_in_order(rt: HostRuntime) -> Result<(), Fail> {
    let mut room = [7; 9];
    let no = Goal::Tolerance { top: 1, bottom: 0 };
    assert!(rt; refused(&rt, &[], by_line(6, no), &mut room, "refused 7")?);
    assert!(rt; refused(&rt, &[], by_line(3, no), &mut room, "refused 6 byte 0")?);
    assert!(rt; refused(&rt, &ENDS, by_line(3, no), &mut room, "refused 7 byte 2")?);
    assert!(rt; refused(&rt, &STEP, by_line(3, no), &mut room, "refused 4")?);
    assert!(rt; refused(&rt, &STEP, by_line(3, TWO), &mut room, "refused 26")?);
    assert!(rt;
        refused(
            &rt,
            &L,
            by_line(2, Goal::Budget(5)),
            &mut room,
            "refused 27"
        )?
    );
    assert!(rt; refused(&rt, &L, by_line(2, TWO), &mut room, "refused 25")?);
    assert!(rt; room == [7; 9]);
    Ok(())
}

// Whether decode tells this text, of the record or of its fault.
fn tells(rt: &HostRuntime, bytes: &[u8], text: &str) -> Result<bool, Fail> {
    let told = match decode(bytes) {
        Ok(decoded) => format!(in rt.alloc(); "{decoded}")?,
        Err(failure) => format!(in rt.alloc(); "{failure}")?,
    };
    Ok(told.as_str() == text)
}

#[test]
fn decodes_any_kind(rt: HostRuntime) -> Result<(), Fail> {
    assert!(rt; tells(&rt, &ENDS, "kind 2\n5 5\n7 7\n")?);
    assert!(rt; tells(&rt, &L, "kind 4\n5 5\n6 5\n7 5\n7 6\n7 7\n")?);
    assert!(rt; tells(&rt, &[7, 0, 5, 0, 0xff, 3, 0, 0, 0], "kind 5\n1023 0\n")?);
    assert!(rt; tells(&rt, &[7, 0, 6, 0, 5, 0, 5, 0, 0], "refused 7 byte 2")?);
    assert!(rt; tells(&rt, &[7, 0, 1, 0, 0, 4, 5, 0, 0], "refused 8 byte 4")?);
    let long = [8, 0, 2, 0, 5, 0, 5, 0, 2, 0xe8];
    assert!(rt; tells(&rt, &long, "refused 9 edge 2 bit 6")?);
    let set = [8, 0, 2, 0, 5, 0, 5, 0, 1, 0xe9];
    assert!(rt; tells(&rt, &set, "refused 10 edge 1 bit 6")?);
    let west = [8, 0, 4, 0, 0, 0, 5, 0, 2, 0x50];
    assert!(rt; tells(&rt, &west, "refused 8 edge 2 bit 3")?);
    Ok(())
}

// The kind and the goal of an order.
fn asked(order: Order) -> (u16, Goal) {
    (order.kind, order.goal)
}

#[test]
fn words_are_read(rt: HostRuntime) {
    let order = Order::within_budget("2", "line", "0012");
    assert!(rt; order.map(asked) == Some((2, Goal::Budget(12))));
    let order = Order::within_budget("70000", "pace", "99999999999999999999999");
    assert!(rt; order.map(asked) == Some((65535, Goal::Budget(65535))));
    assert!(rt; Order::within_budget("2", "Line", "12").is_none());
    assert!(rt; Order::within_budget("2", "line", "").is_none());
    assert!(rt; Order::within_budget("+2", "line", "12").is_none());
    assert!(rt; Order::within_tolerance("2", "pace", "2", "1").is_some());
    assert!(rt; Order::within_tolerance("2", "pace", "2", "1.5").is_none());
}

// An error that main hands on is printed by its Debug, which says what its Display does.
#[test]
fn failures_are_shown_by_their_text(rt: HostRuntime) -> Result<(), Fail> {
    let Err(failure) = encode(&ENDS, by_line(2, TWO), &mut []) else {
        return Err(Fail::new("encoded"));
    };
    let told = format!(in rt.alloc(); "{failure:?}")?;
    assert!(rt; told.as_str() == "refused 7 byte 2");
    Ok(())
}
