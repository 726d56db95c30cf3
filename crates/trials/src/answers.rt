// Cheapest and finest against every polygon.
use super::asked::{Asked, KEPT, PLACES};
use super::ratio::Ratio;
use super::rows::rows_agree;
use super::tally::ROOM;
use super::trial::{TOLERANCES, Trial};

pub(crate) fn finest_agrees(trial: &Trial) -> bool {
    let mut list = [KEPT; PLACES];
    let answer = trial.ask_finest(&mut list);
    match (answer, trial.tally.closest(ROOM)) {
        (Err(26), None) => list == [KEPT; PLACES],
        (Ok(found), Some(best)) => {
            let strays = Ratio::from(found.deviation);
            trial
                .weight_of(&list, found.vertices)
                .is_some_and(|own| own.strays == strays && strays.equals(best.strays))
        }
        _ => false,
    }
}

pub(crate) fn cheapest_agrees(trial: &Trial, asked: &Asked, tolerance: Ratio) -> bool {
    match (asked.answer, trial.tally.cheapest(tolerance)) {
        (Err(_), None) => asked.is_refused_by(26),
        (Ok(told), Some(best)) => trial.is_best(told, &asked.list, best),
        _ => false,
    }
}

fn cheapest_and_rows_agree(trial: &Trial, tolerance: Ratio) -> bool {
    let asked = trial.ask_cheapest(tolerance);
    cheapest_agrees(trial, &asked, tolerance) && rows_agree(trial, &asked.rows, tolerance)
}

// How many answers agree, where all do: finest's, and cheapest's at each tolerance.
pub(crate) fn answers_agree(trial: &Trial) -> Option<u32> {
    let cheapest = TOLERANCES
        .iter()
        .all(|tolerance| cheapest_and_rows_agree(trial, *tolerance));
    (cheapest && finest_agrees(trial)).then_some(9)
}
