use super::asked::{KEPT, PLACES, answered, ask_cheapest, ask_closest, ask_finest, priced_row};
use super::outlines::traced;
use coding::Kind;
use measure::{Line, Pace};
use std::test::Fail;

// Two moves right and two down.
const CORNER: [u8; 4] = [0, 0, 6, 6];

#[test]
fn by_the_corner(rt: HostRuntime) -> Result<(), Fail> {
    let corner = traced(&CORNER)?;
    assert!(rt; ask_cheapest(&corner, &Kind::Run, &Line, 2, 1).is(&[0, 4], 6, 16, 8));
    assert!(rt; ask_cheapest(&corner, &Kind::Run, &Line, 1, 1).is(&[0, 2, 4], 12, 0, 1));
    assert!(rt; ask_cheapest(&corner, &Kind::Flat, &Line, 1, 1).is(&[0, 2, 4], 44, 0, 1));
    assert!(rt; ask_cheapest(&corner, &Kind::Run, &Pace, 2, 1).is(&[0, 4], 6, 32, 16));
    Ok(())
}

#[test]
fn tolerances_are_refused(rt: HostRuntime) -> Result<(), Fail> {
    let corner = traced(&CORNER)?;
    assert!(rt; ask_cheapest(&corner, &Kind::Run, &Line, 1, 0).is_refused_by(4));
    assert!(rt; ask_cheapest(&corner, &Kind::Run, &Line, 1 << 40, 1).is_refused_by(4));
    Ok(())
}

// A diagonal step has no code by axis.
#[test]
fn no_step_one_step_and_a_way_back(rt: HostRuntime) -> Result<(), Fail> {
    assert!(rt; ask_cheapest(&traced(&[])?, &Kind::Run, &Line, 0, 1).is(&[0], 0, 0, 1));
    assert!(rt; ask_cheapest(&traced(&[7])?, &Kind::Axis, &Line, 0, 1).is_refused_by(26));
    assert!(rt; ask_cheapest(&traced(&[0, 4])?, &Kind::Flat, &Line, 1, 1).is(&[0, 2], 22, 1, 1));
    Ok(())
}

// 1 and 15 steps cost as much as 15 and 1: the lower predecessor is taken.
#[test]
fn lowest_of_equal_ways(rt: HostRuntime) -> Result<(), Fail> {
    assert!(rt;
        ask_cheapest(&traced(&[0; 16])?, &Kind::Run, &Line, 0, 1).is(&[0, 1, 16], 13, 0, 1)
    );
    Ok(())
}

// Point 4 is reached from 2 and from 3 with no straying, and so are points 2 and 3 from all before them on their leg.
#[test]
fn lowest_of_equal_fractions(rt: HostRuntime) -> Result<(), Fail> {
    let mut list = [KEPT; PLACES];
    let answer = ask_finest(&traced(&CORNER)?, &Kind::Run, &Line, &mut list);
    assert!(rt; answer.is_ok() && list.starts_with(&[0, 2, 4, KEPT]));
    Ok(())
}

// Half a square pel lies between two whole tolerances, and neither of them gives what is closest within 11 bits.
#[test]
fn between_whole_tolerances(rt: HostRuntime) -> Result<(), Fail> {
    let hook = traced(&[0, 0, 2, 4])?;
    let at_0 = ask_cheapest(&hook, &Kind::Run, &Line, 0, 1);
    let at_1 = ask_cheapest(&hook, &Kind::Run, &Line, 1, 1);
    assert!(rt; at_0.is(&[0, 2, 3, 4], 16, 0, 1) && at_1.is(&[0, 1, 4], 10, 1, 1));
    let between = ask_closest(&hook, &Kind::Run, &Line, 11);
    let above = ask_closest(&hook, &Kind::Run, &Line, 15);
    assert!(rt; between.is(&[0, 2, 4], 11, 1, 2) && above.is(&[0, 2, 4], 11, 1, 2));
    Ok(())
}

// Four fifths lie between them too.
#[test]
fn between_whole_tolerances_by_flat(rt: HostRuntime) -> Result<(), Fail> {
    let hook = traced(&[0, 0, 2, 5])?;
    assert!(rt; ask_closest(&hook, &Kind::Flat, &Line, 66).is(&[0, 2, 3, 4], 66, 0, 1));
    assert!(rt; ask_closest(&hook, &Kind::Flat, &Line, 65).is(&[0, 3, 4], 44, 4, 5));
    assert!(rt; ask_closest(&hook, &Kind::Flat, &Line, 43).is(&[0, 4], 22, 1, 1));
    assert!(rt; ask_closest(&hook, &Kind::Flat, &Line, 21).is_refused_by(27));
    Ok(())
}

#[test]
fn short_rows_before_short_list(rt: HostRuntime) -> Result<(), Fail> {
    let corner = traced(&CORNER)?;
    let mut few = [priced_row(); 4];
    let mut rows = [priced_row(); 5];
    let mut short = [KEPT; 4];
    let mut list = [KEPT; 5];
    let numbers = [
        answered(&corner, &mut few, &mut list),
        answered(&corner, &mut few, &mut short),
        answered(&corner, &mut rows, &mut short),
    ];
    assert!(rt; numbers == [24, 24, 23] && list == [KEPT; 5] && short == [KEPT; 4]);
    assert!(rt; few[0].predecessor == KEPT && rows[0].predecessor == KEPT);
    Ok(())
}
