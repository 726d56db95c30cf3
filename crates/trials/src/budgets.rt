// Closest against every polygon.
use super::tally::ROOM;
use super::trial::{LARGEST, Trial};

// What is answered and left is what cheapest at the deviation told answers and leaves. A refusal leaves the list, and the rows of
// cheapest at the largest tolerance.
fn closest_agrees(trial: &Trial, budget: u16) -> bool {
    let asked = trial.ask_closest(budget);
    match (asked.answer, trial.tally.closest(budget as usize)) {
        (Ok(told), Some(best)) => {
            trial.is_best(told, &asked.list, best)
                && asked == trial.ask_cheapest(told.weight.strays)
        }
        (Err(_), None) => {
            asked.is_refused_by(if trial.tally.is_empty() { 26 } else { 27 })
                && asked.rows == trial.ask_cheapest(LARGEST).rows
        }
        _ => false,
    }
}

// How many answers agree, where all do: at every budget that a polygon just keeps or just misses, at none and at the largest.
pub(crate) fn budgets_agree(trial: &Trial) -> Option<u32> {
    let mut count = 1u32;
    for budget in 0..ROOM as u16 {
        let bits = budget as usize;
        if budget == 0 || trial.tally.has(bits) || trial.tally.has(bits + 1) {
            if !closest_agrees(trial, budget) {
                return None;
            }
            count = count.wrapping_add(1);
        }
    }
    closest_agrees(trial, u16::MAX).then_some(count)
}
