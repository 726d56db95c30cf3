use super::deviation::Deviation;
use super::edge::edge_price;
use super::priced::Priced;
use super::straying::Straying;
use super::weigher::Weigher;
use coding::Run;
use cost::Cost;
use cost::bits::Bits;
use cost::price::Price;
use measure::{Fraction, Line};
use outline::{Outline, Refusal};
use std::test::Fail;

// Two moves right and two down.
fn corner() -> Result<Outline, Refusal> {
    let mut outline = Outline::new();
    outline.open(32, 32, 5, 5)?;
    outline.extend(0)?;
    outline.extend(0)?;
    outline.extend(6)?;
    outline.extend(6)?;
    Ok(outline)
}

fn whole(top: u64) -> Result<Deviation, Refusal> {
    Ok(Deviation {
        value: Fraction::new(top, 1)?,
    })
}

fn is(f: Fraction, top: u64, bottom: u32) -> bool {
    f.top() == top && f.bottom() == bottom
}

fn weighs(w: Option<(Price, Fraction)>, bits: u8, top: u64, bottom: u32) -> bool {
    w.is_some_and(|(price, deviation)| price.bits() == bits && is(deviation, top, bottom))
}

#[test]
fn priced_by_run_and_line(rt: HostRuntime) -> Result<(), Fail> {
    let outline = corner()?;
    let wide = Priced::new(&Run, &Line, 2, 1)?;
    assert!(rt; weighs(wide.weight(&outline, 0, 4), 6, 16, 8));
    assert!(rt; weighs(wide.weight(&outline, 0, 2), 6, 0, 1));
    assert!(rt; wide.weight(&outline, 0, 3).is_none());
    assert!(rt; wide.weight(&outline, 4, 4).is_none());
    assert!(rt; wide.weight(&outline, 0, 5).is_none());
    let narrow = Priced::new(&Run, &Line, 1, 1)?;
    assert!(rt; narrow.weight(&outline, 0, 4).is_none());
    assert!(rt; weighs(narrow.weight(&outline, 0, 2), 6, 0, 1));
    Ok(())
}

#[test]
fn straying_needs_a_code(rt: HostRuntime) -> Result<(), Fail> {
    let outline = corner()?;
    let straying = Straying::new(&Run, &Line);
    assert!(rt;
        straying
            .weight(&outline, 0, 4)
            .is_some_and(|f| is(f, 16, 8))
    );
    assert!(rt; edge_price(&Run, &outline, 0, 3).is_none());
    assert!(rt; straying.weight(&outline, 0, 3).is_none());
    Ok(())
}

#[test]
fn tolerance_is_refused(rt: HostRuntime) {
    assert!(rt; Priced::new(&Run, &Line, 1, 0).is_err_and(|e| e == Refusal::Tolerance));
}

// 1/1 is below 2/1, and no longer after 3/1 joins both.
#[test]
fn deviation_is_not_strict(rt: HostRuntime) -> Result<(), Fail> {
    let (one, two, three) = (whole(1)?, whole(2)?, Fraction::new(3, 1)?);
    assert!(rt; two.above(one));
    assert!(rt; !two.join(three).above(one.join(three)));
    Ok(())
}

// Equal values keep the old fraction.
#[test]
fn deviation_keeps_the_old(rt: HostRuntime) -> Result<(), Fail> {
    let old = Deviation {
        value: Fraction::new(16, 8)?,
    };
    assert!(rt; is(old.join(Fraction::new(2, 1)?).value, 16, 8));
    assert!(rt; is(Deviation::start().join(old.value).value, 16, 8));
    Ok(())
}

// Deviations first, and bits where neither is greater.
fn deviation_first(a: Deviation, n: Bits, b: Deviation, m: Bits) -> bool {
    if a.above(b) {
        true
    } else if b.above(a) {
        false
    } else {
        n.above(m)
    }
}

// Why no cost puts deviation first: 1/1 with 5 bits is below 2/1 with 3, but above it once 3/1 with 1 bit joins both.
#[test]
fn deviation_first_is_no_cost(rt: HostRuntime) -> Result<(), Fail> {
    let (one, two, three) = (whole(1)?, whole(2)?, Fraction::new(3, 1)?);
    let (five, few) = (Bits { count: 5 }, Bits { count: 3 });
    assert!(rt; deviation_first(two, few, one, five));
    let Some(bit) = Price::new(1) else {
        assert!(rt; false);
        return Ok(());
    };
    assert!(rt;
        deviation_first(
            one.join(three),
            five.join(bit),
            two.join(three),
            few.join(bit),
        )
    );
    Ok(())
}
