use super::answers::answers_agree;
use super::budgets::budgets_agree;
use super::outlines::{longer, short};
use super::trial::{CODED, Trial};
use outline::{Outline, Refusal};

// How many answers agree by every kind of code and both measures, where all do.
fn agree_of<A: Fn(&Trial) -> Option<u32>>(
    agree: &A,
    outline: Result<Outline, Refusal>,
) -> Option<u32>
    requires { A.IsAlwaysCallable agree.now }
{
    let outline = outline.ok()?;
    let mut count = 0u32;
    for (kind, measure) in CODED {
        count = count.wrapping_add(agree(&Trial::new(&outline, kind, measure))?);
    }
    Some(count)
}

// How many answers agree of all outlines of up to 5 steps, or the number of the first outline where not all do.
fn agree_of_short<A: Fn(&Trial) -> Option<u32>>(agree: A) -> Result<u32, u32>
    requires { A.IsAlwaysCallable agree }
{
    let mut count = 0u32;
    for number in 0..37_449u32 {
        count = count.wrapping_add(agree_of(&agree, short(number)).ok_or(number)?);
    }
    Ok(count)
}

// The same of some longer outlines.
fn agree_of_longer<A: Fn(&Trial) -> Option<u32>>(agree: A, outlines: u32) -> Result<u32, u32>
    requires { A.IsAlwaysCallable agree }
{
    let mut count = 0u32;
    for number in 0..outlines {
        count = count.wrapping_add(agree_of(&agree, longer(number)).ok_or(number)?);
    }
    Ok(count)
}

// Finest, and cheapest at 8 tolerances.
#[test]
fn answers_of_short_outlines(rt: HostRuntime) {
    assert_eq!(rt; agree_of_short(answers_agree), Ok(3_370_410));
}

#[test]
fn answers_of_longer_outlines(rt: HostRuntime) {
    assert_eq!(rt; agree_of_longer(answers_agree, 2_100), Ok(189_000));
}

// Closest.
#[test]
fn budgets_of_short_outlines(rt: HostRuntime) {
    assert_eq!(rt; agree_of_short(budgets_agree), Ok(4_142_084));
}

#[test]
fn budgets_of_longer_outlines(rt: HostRuntime) {
    assert_eq!(rt; agree_of_longer(budgets_agree, 840), Ok(209_714));
}
