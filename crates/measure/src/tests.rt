use super::chosen::{Chosen, UnknownMeasure};
use super::deviations::{deviation, polygon_deviation};
use super::fraction::Fraction;
use super::line::Line;
use super::pace::Pace;
use super::tolerance::{deviation_within, is_within};
use outline::{Outline, Refusal};
use std::test::Fail;

// An outline of 2 legs in a 1,024 by 1,024 frame, each by a direction and a number of moves.
fn two_legs(first: u8, moves: usize, then: u8, more: usize) -> Result<Outline, Refusal> {
    let mut outline = Outline::new();
    outline.open(1024, 1024, 500, 500)?;
    for _ in 0..moves {
        outline.extend(first)?;
    }
    for _ in 0..more {
        outline.extend(then)?;
    }
    Ok(outline)
}

fn is(f: Option<Fraction>, top: u64, bottom: u32) -> bool {
    f.is_some_and(|f| f.top() == top && f.bottom() == bottom)
}

// The number of the refusal, or 0.
fn number(r: Result<Fraction, Refusal>) -> u8 {
    r.map_or_else(|refusal| refusal.number(), |_| 0)
}

#[test]
fn corner(rt: HostRuntime) -> Result<(), Fail> {
    let outline = two_legs(0, 2, 6, 2)?;
    assert!(rt; is(deviation(&Line, &outline, 0, 4), 16, 8));
    assert!(rt; is(deviation(&Pace, &outline, 0, 4), 32, 16));
    assert!(rt; is(polygon_deviation(&Line, &outline, &[0, 2, 4]).ok(), 0, 1));
    assert!(rt;
        is(
            deviation_within(&Line, &outline, 0, 4, Fraction::new(2, 1)?),
            16,
            8,
        )
    );
    assert!(rt; !is_within(&Line, &outline, 0, 4, Fraction::new(15, 8)?));
    Ok(())
}

#[test]
fn there_and_back(rt: HostRuntime) -> Result<(), Fail> {
    let outline = two_legs(0, 1, 4, 1)?;
    assert!(rt; is(deviation(&Line, &outline, 0, 2), 1, 1));
    assert!(rt; is(deviation(&Pace, &outline, 0, 2), 4, 4));
    Ok(())
}

#[test]
fn longest_corner(rt: HostRuntime) -> Result<(), Fail> {
    let outline = two_legs(0, 128, 6, 127)?;
    assert!(rt; is(deviation(&Line, &outline, 0, 255), 264257536, 32513));
    assert!(rt; is(deviation(&Pace, &outline, 0, 255), 528515072, 65025));
    let list = [0, 100, 255];
    assert!(rt;
        is(
            polygon_deviation(&Line, &outline, &list).ok(),
            12645136,
            16913,
        )
    );
    assert!(rt;
        is(
            polygon_deviation(&Pace, &outline, &list).ok(),
            25290272,
            24025,
        )
    );
    Ok(())
}

#[test]
fn longest_diagonal(rt: HostRuntime) -> Result<(), Fail> {
    let outline = two_legs(7, 255, 0, 0)?;
    assert!(rt; is(deviation(&Line, &outline, 0, 255), 0, 1));
    assert!(rt; is(deviation(&Pace, &outline, 0, 255), 0, 1));
    assert!(rt; deviation(&Line, &outline, 3, 3).is_none());
    assert!(rt; deviation(&Line, &outline, 0, 256).is_none());
    Ok(())
}

#[test]
fn no_polygon(rt: HostRuntime) -> Result<(), Fail> {
    let outline = two_legs(0, 2, 6, 2)?;
    assert!(rt; number(polygon_deviation(&Line, &outline, &[])) == 5);
    assert!(rt; number(polygon_deviation(&Line, &outline, &[1, 4])) == 5);
    assert!(rt; number(polygon_deviation(&Line, &outline, &[0, 3])) == 5);
    assert!(rt; number(polygon_deviation(&Line, &outline, &[0, 2, 2, 4])) == 5);
    Ok(())
}

#[test]
fn bounds(rt: HostRuntime) {
    assert!(rt; number(Fraction::new((1 << 40) - 1, 1 << 20)) == 0);
    assert!(rt; number(Fraction::new(1 << 40, 1)) == 4);
    assert!(rt; number(Fraction::new(0, 0)) == 4);
    assert!(rt; number(Fraction::new(0, (1 << 20) + 1)) == 4);
}

#[test]
fn texts(rt: HostRuntime) -> Result<(), Fail> {
    let alloc = rt.alloc();
    let text = format!(in alloc; "{} {}", Fraction::new(16, 8)?, Chosen::Pace)?;
    assert_eq!(rt; text.as_str(), "16/8 pace");
    assert_eq!(rt; "line".parse::<Chosen>(), Ok(Chosen::Line));
    assert_eq!(rt; "lines".parse::<Chosen>(), Err(UnknownMeasure));
    Ok(())
}
