use super::asked::{KEPT, answered, ask_cheapest, priced_row, straying_row};
use super::outlines::traced;
use coding::{Axis, Flat, Run};
use measure::{Line, Pace};
use search::finest;
use std::test::Fail;

// Two moves right and two down.
const L: [u8; 4] = [0, 0, 6, 6];

#[test]
fn one_point(rt: HostRuntime) -> Result<(), Fail> {
    assert!(rt; ask_cheapest(&traced(&[])?, &Run, &Line, 0, 1).is(&[0], 0, 0, 1));
    Ok(())
}

#[test]
fn corner(rt: HostRuntime) -> Result<(), Fail> {
    let outline = traced(&L)?;
    assert!(rt; ask_cheapest(&outline, &Run, &Line, 2, 1).is(&[0, 4], 6, 16, 8));
    assert!(rt; ask_cheapest(&outline, &Run, &Line, 1, 1).is(&[0, 2, 4], 12, 0, 1));
    assert!(rt; ask_cheapest(&outline, &Flat, &Line, 1, 1).is(&[0, 2, 4], 44, 0, 1));
    assert!(rt; ask_cheapest(&outline, &Run, &Pace, 2, 1).is(&[0, 4], 6, 32, 16));
    Ok(())
}

#[test]
fn no_code_and_way_back(rt: HostRuntime) -> Result<(), Fail> {
    assert!(rt; ask_cheapest(&traced(&[7])?, &Axis, &Line, 0, 1).is_refused_by(26));
    assert!(rt; ask_cheapest(&traced(&[0, 4])?, &Flat, &Line, 1, 1).is(&[0, 2], 22, 1, 1));
    Ok(())
}

#[test]
fn tolerances_are_refused(rt: HostRuntime) -> Result<(), Fail> {
    let outline = traced(&L)?;
    assert!(rt; ask_cheapest(&outline, &Run, &Line, 1, 0).is_refused_by(4));
    assert!(rt; ask_cheapest(&outline, &Run, &Line, 1 << 40, 1).is_refused_by(4));
    Ok(())
}

// 1 and 15 steps cost as much as 15 and 1: the lower predecessor is taken.
#[test]
fn lowest_of_equal_ways(rt: HostRuntime) -> Result<(), Fail> {
    let outline = traced(&[0; 16])?;
    let asked = ask_cheapest(&outline, &Run, &Line, 0, 1);
    assert!(rt; asked.is(&[0, 1, 16], 13, 0, 1));
    assert_eq!(rt; asked.rows[16].predecessor, 1);
    assert_eq!(rt; asked.rows[15].predecessor, 0);
    Ok(())
}

// Point 4 is reached from 2 and from 3 with no straying, and so are points 2 and 3 from all before them on their leg.
#[test]
fn lowest_of_equal_fractions(rt: HostRuntime) -> Result<(), Fail> {
    let mut rows = [straying_row(); 6];
    let mut list = [KEPT; 5];
    let found = finest(&traced(&L)?, &Run, &Line, &mut rows, &mut list)?;
    assert_eq!(rt; found.vertices, 3);
    assert_eq!(rt; found.deviation.top(), 0);
    assert_eq!(rt; list, [0, 2, 4, KEPT, KEPT]);
    assert_eq!(rt; rows[4].predecessor, 2);
    assert_eq!(rt; rows[3].predecessor, 2);
    assert_eq!(rt; rows[2].predecessor, 0);
    assert_eq!(rt; rows[5].predecessor, KEPT);
    Ok(())
}

#[test]
fn short_rows_before_short_list(rt: HostRuntime) -> Result<(), Fail> {
    let outline = traced(&L)?;
    let mut few = [priced_row(); 4];
    let mut rows = [priced_row(); 5];
    let mut short = [KEPT; 4];
    let mut list = [KEPT; 5];
    assert_eq!(rt; answered(&outline, &mut few, &mut list), 24);
    assert_eq!(rt; answered(&outline, &mut few, &mut short), 24);
    assert_eq!(rt; answered(&outline, &mut rows, &mut short), 23);
    assert_eq!(rt; list, [KEPT; 5]);
    assert_eq!(rt; short, [KEPT; 4]);
    assert_eq!(rt; few[0].predecessor, KEPT);
    assert_eq!(rt; rows[0].predecessor, KEPT);
    Ok(())
}

#[test]
fn what_is_past_the_end_is_kept(rt: HostRuntime) -> Result<(), Fail> {
    let outline = traced(&L)?;
    let mut rows = [priced_row(); 7];
    let mut list = [KEPT; 7];
    assert_eq!(rt; answered(&outline, &mut rows, &mut list), 0);
    assert_eq!(rt; list, [0, 4, KEPT, KEPT, KEPT, KEPT, KEPT]);
    assert_eq!(rt; rows[4].predecessor, 0);
    assert_eq!(rt; rows[5].predecessor, KEPT);
    assert!(rt; rows[6].reached && rows[6].cost.first.count == 1);
    Ok(())
}
