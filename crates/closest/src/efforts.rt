// How many tolerances closest tries on outlines of 256 points by flat.
use crate::gap::Gap;
use crate::task::Task;
use crate::tests::junk;
use coding::Flat;
use cost::bits::Bits;
use cost::two_part::TwoPart;
use graph::Row;
use measure::{Fraction, Line};
use outline::{Outline, Refusal};
use std::test::Fail;
use weighing::Deviation;

const CIRCLES: [&[u8; 255]; 3] = [
    b"222223222322323232323333333333343434344344434444444444454445445454545455555555555656565665666566666666666766676676767676777777777770707070070007000000000001000100101010101111111111121212122122212222222222232223223232323233333333333434343443444344444444444",
    b"222222322223223232232332332333333333334334344343443444434444444444444544445445454454554554555555555556556566565665666656666666666666766667667676676776776777777777770770700707007000070000000000000100001001010010110110111111111112112122121221222212222222222",
    b"222222232222322232232232323232332332333333333333334334343434344344344434444344444444444444454444544454454454545454554554555555555555556556565656566566566656666566666666666666676666766676676676767676776776777777777777770770707070700700700070000700000000000",
];

const SPIRALS: [&[u8; 255]; 3] = [
    b"222334354455556666767777700000010101112122213222323233333443444444544545555555665666666667667677777777070000700100001010101111112121221222222223223223323333333343444344444444444544545455555555556566566665666676666766767677677777770707070007000000000010001",
    b"122333344444554556566666676767777700700000010010111111112221222222322232332333333434344434444445444545454555555555656656665666666766676676767767777777707070070000070000100000100101010111101111121121221221222222213222222232232232323323333333333434343443443",
    b"122223233434444454545555566566666667667677767777007070000000000010010110111111112121221222222222222232232232332333333333434343443444443444445444445445445455455455555555565656565665666656666666666676666766767667767677767777777770707070707000700070000000000",
];

// Budgets for 1, 2, 4, .. edges.
const BUDGETS: [u16; 7] = [22, 44, 88, 176, 352, 704, 1408];

// An outline by the digits of a chain.
fn by_digits(chain: &[u8]) -> Result<Outline, Refusal> {
    let mut outline = Outline::new();
    outline.open(1024, 1024, 512, 512)?;
    for digit in chain {
        outline.extend(*digit % 8)?;
    }
    Ok(outline)
}

// A walk that mostly goes on as it went.
fn walk(seed: u32) -> Result<Outline, Refusal> {
    let mut outline = Outline::new();
    outline.open(1024, 1024, 512, 512)?;
    let mut state = seed;
    let mut direction: u8 = 0;
    for _ in 0..255 {
        state = state.wrapping_mul(1664525).wrapping_add(1013904223);
        direction = match state >> 29 {
            0 => direction.wrapping_add(1),
            1 => direction.wrapping_add(7),
            _ => direction,
        };
        outline.extend(direction % 8)?;
    }
    Ok(outline)
}

// How often closest fills the rows: first, for each tolerance tried, and last.
fn fillings(
    outline: &Outline,
    budget: u16,
    rows: &mut [Row<TwoPart<Bits, Deviation>>],
) -> Result<usize, Refusal> {
    let task = Task {
        outline,
        coder: &Flat,
        measure: &Line,
        budget,
    };
    let Some(first) = task.fill_at(Fraction::largest(), rows)? else {
        return Ok(1);
    };
    let mut gap = Gap {
        low: None,
        high: first.second.value,
    };
    for tries in 0..1000 {
        let Some(tolerance) = task.next_tolerance(gap) else {
            return Ok(tries + 2);
        };
        match task.try_at(tolerance, rows)? {
            Some(deviation) => gap.high = deviation,
            None => gap.low = Some(tolerance),
        }
    }
    Ok(1000)
}

// The most at any of the budgets.
fn most_fillings(outline: &Outline) -> Result<usize, Refusal> {
    let mut most: usize = 0;
    for budget in BUDGETS {
        most = most.max(fillings(outline, budget, &mut [junk(); 256])?);
    }
    Ok(most)
}

#[test]
fn circles(rt: HostRuntime) -> Result<(), Fail> {
    for chain in CIRCLES {
        assert!(rt; most_fillings(&by_digits(chain)?)? <= 17);
    }
    Ok(())
}

#[test]
fn spirals(rt: HostRuntime) -> Result<(), Fail> {
    for chain in SPIRALS {
        assert!(rt; most_fillings(&by_digits(chain)?)? <= 16);
    }
    Ok(())
}

#[test]
fn walks(rt: HostRuntime) -> Result<(), Fail> {
    for seed in 0..4 {
        assert!(rt; most_fillings(&walk(seed)?)? <= 17);
    }
    Ok(())
}
