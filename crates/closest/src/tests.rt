use crate::{Goal, best_polygon, closest};
use coding::{Axis, Run};
use cost::bits::Bits;
use cost::two_part::TwoPart;
use graph::Row;
use measure::{Fraction, Line};
use outline::{Outline, Refusal};
use search::PricedPolygon;
use std::test::Fail;
use weighing::Deviation;

// Two moves right and two down.
fn corner() -> Result<Outline, Refusal> {
    let mut outline = Outline::new();
    outline.open(32, 32, 5, 5)?;
    for direction in [0, 0, 6, 6] {
        outline.extend(direction)?;
    }
    Ok(outline)
}

pub(crate) fn junk() -> Row<TwoPart<Bits, Deviation>> {
    Row {
        reached: true,
        cost: TwoPart {
            first: Bits { count: 7 },
            second: Deviation {
                value: Fraction::zero(),
            },
        },
        predecessor: 7,
    }
}

// The refusal's number, or 0.
fn number(answer: Result<PricedPolygon, Refusal>) -> u8 {
    answer.map_or_else(|refusal| refusal.number(), |_| 0)
}

fn answers(
    answer: Result<PricedPolygon, Refusal>,
    vertices: usize,
    bits: u16,
    top: u64,
    bottom: u32,
) -> bool {
    answer.is_ok_and(|a| {
        a.vertices == vertices
            && a.bits == bits
            && a.deviation.top() == top
            && a.deviation.bottom() == bottom
    })
}

#[test]
fn over_the_budget(rt: HostRuntime) -> Result<(), Fail> {
    let outline = corner()?;
    let mut rows = [junk(); 6];
    let mut list = [9; 6];
    let answer = closest(&outline, &Run, &Line, 5, &mut rows, &mut list);
    assert_eq!(rt; number(answer), 27);
    assert_eq!(rt; list, [9, 9, 9, 9, 9, 9]);
    assert_eq!(rt; rows[4].predecessor, 0);
    assert_eq!(rt; rows[5].predecessor, 7);
    Ok(())
}

#[test]
fn one_edge(rt: HostRuntime) -> Result<(), Fail> {
    let outline = corner()?;
    let mut rows = [junk(); 6];
    let mut list = [9; 6];
    let answer = closest(&outline, &Run, &Line, 11, &mut rows, &mut list);
    assert!(rt; answers(answer, 2, 6, 16, 8));
    assert_eq!(rt; list, [0, 4, 9, 9, 9, 9]);
    Ok(())
}

#[test]
fn by_the_corner(rt: HostRuntime) -> Result<(), Fail> {
    let outline = corner()?;
    let mut rows = [junk(); 6];
    let mut list = [9; 6];
    let answer = closest(&outline, &Run, &Line, 12, &mut rows, &mut list);
    assert!(rt; answers(answer, 3, 12, 0, 1));
    assert_eq!(rt; list, [0, 2, 4, 9, 9, 9]);
    assert!(rt; !rows[3].reached || rows[3].predecessor == 2);
    assert_eq!(rt; rows[4].predecessor, 2);
    assert_eq!(rt; rows[5].predecessor, 7);
    Ok(())
}

#[test]
fn refused_for_room(rt: HostRuntime) -> Result<(), Fail> {
    let outline = corner()?;
    let mut rows = [junk(); 5];
    let few = closest(&outline, &Run, &Line, 12, &mut [junk(); 4], &mut [9; 4]);
    assert_eq!(rt; number(few), 24);
    let short = closest(&outline, &Run, &Line, 12, &mut rows, &mut [9; 4]);
    assert_eq!(rt; number(short), 23);
    assert_eq!(rt; rows[4].predecessor, 7);
    Ok(())
}

// A diagonal step has no code by axis, whatever the budget.
#[test]
fn nothing_to_write(rt: HostRuntime) -> Result<(), Fail> {
    let mut outline = Outline::new();
    outline.open(32, 32, 5, 5)?;
    outline.extend(7)?;
    let mut rows = [junk(); 3];
    let mut list = [9; 2];
    let answer = closest(&outline, &Axis, &Line, 0, &mut rows, &mut list);
    assert_eq!(rt; number(answer), 26);
    assert_eq!(rt; list, [9, 9]);
    assert!(rt; !rows[1].reached);
    assert_eq!(rt; rows[2].predecessor, 7);
    Ok(())
}

// One point is a polygon with no edge, for which no bits are needed.
#[test]
fn one_point(rt: HostRuntime) {
    let mut list = [9; 2];
    let answer = closest(&Outline::new(), &Run, &Line, 0, &mut [junk(); 1], &mut list);
    assert!(rt; answers(answer, 1, 0, 0, 1));
    assert_eq!(rt; list, [0, 9]);
}

// By a goal each is asked as by its own name.
#[test]
fn by_a_goal(rt: HostRuntime) -> Result<(), Fail> {
    let outline = corner()?;
    let mut rows = [junk(); 6];
    let mut list = [9; 6];
    let within_two = Goal::Tolerance { top: 2, bottom: 1 };
    let cheap = best_polygon(within_two, &outline, &Run, &Line, &mut rows, &mut list);
    assert!(rt; answers(cheap, 2, 6, 16, 8));
    let close = best_polygon(
        Goal::Budget(12),
        &outline,
        &Run,
        &Line,
        &mut rows,
        &mut list,
    );
    assert!(rt; answers(close, 3, 12, 0, 1));
    assert_eq!(rt; list, [0, 2, 4, 9, 9, 9]);
    Ok(())
}
