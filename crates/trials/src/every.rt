use super::answers::{cheapest_agrees, finest_agrees};
use super::outlines::{penned, strolled};
use super::ratio::Ratio;
use super::rows::rows_agree;
use super::trial::{CODED, Trial};
use coding::Kind;
use measure::Chosen;
use outline::Outline;
use std::test::Fail;

const WHOLE: [Ratio; 3] = [
    Ratio { top: 0, bottom: 1 },
    Ratio { top: 1, bottom: 1 },
    Ratio { top: 2, bottom: 1 },
];

const TOLERANCES: [Ratio; 5] = [
    Ratio { top: 0, bottom: 1 },
    Ratio { top: 1, bottom: 2 },
    Ratio { top: 1, bottom: 1 },
    Ratio { top: 2, bottom: 1 },
    Ratio { top: 8, bottom: 1 },
];

// Where a search and the trial of every polygon part: finest, or cheapest at a tolerance.
#[derive(Clone, Copy, PartialEq, Eq, Debug)]
struct Miss {
    kind: Kind,
    measure: Chosen,
    tolerance: Option<Ratio>,
}

fn first_miss(outline: &Outline, tolerances: &[Ratio]) -> Option<Miss> {
    for (kind, measure) in CODED {
        let trial = Trial::new(outline, kind, measure);
        let misses = |tolerance: &&Ratio| !cheapest_agrees(
            &trial,
            &trial.ask_cheapest(**tolerance),
            **tolerance,
        );
        let tolerance = tolerances.iter().find(misses).copied();
        if tolerance.is_some() || !finest_agrees(&trial) {
            return Some(Miss {
                kind,
                measure,
                tolerance,
            });
        }
    }
    None
}

#[test]
fn every_short_outline(rt: HostRuntime) -> Result<(), Fail> {
    for steps in 0..6u32 {
        for word in 0..1u32 << (3 * steps) {
            let outline = penned(word, steps)?;
            assert_eq!(rt; first_miss(&outline, &TOLERANCES), None, "{}", word);
        }
    }
    Ok(())
}

#[test]
fn every_row(rt: HostRuntime) -> Result<(), Fail> {
    for word in 0..4096u32 {
        let outline = penned(word, 4)?;
        for (kind, measure) in CODED {
            let trial = Trial::new(&outline, kind, measure);
            for tolerance in TOLERANCES {
                let asked = trial.ask_cheapest(tolerance);
                assert!(rt; rows_agree(&trial, &asked.rows, tolerance), "{}", word);
            }
        }
    }
    Ok(())
}

// Outlines of 12 to 14 points.
#[test]
fn some_long_outlines(rt: HostRuntime) -> Result<(), Fail> {
    for seed in 1..201u32 {
        let outline = strolled(seed, 11 + seed % 3)?;
        assert!(rt; outline.len() as u32 == 12 + seed % 3);
        assert_eq!(rt; first_miss(&outline, &WHOLE), None, "{}", seed);
    }
    Ok(())
}
