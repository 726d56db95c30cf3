//! The closest polygon of an outline that a coder can write within a budget of bits.
#![tactic(auto)]

ghost use Rattle.std.specs.Prelude.{◌≤◌, length};
ghost use Rattle.closest.specs.Closest.{ClosestRule, ClosestBest};
ghost use Rattle.outline.specs.Plain.{plain};

use coding::Coder;
use cost::bits::Bits;
use cost::two_part::TwoPart;
pub use goal::{Goal, best_polygon};
use graph::Row;
use measure::{Fraction, Measure};
use outline::{Outline, Refusal};
use search::{PricedPolygon, cheapest, check_room};
use task::Task;
use weighing::Deviation;

mod choice;
#[cfg(test)]
mod efforts;
mod gap;
mod goal;
mod sample;
mod sampling;
mod smallest;
mod task;
#[cfg(test)]
mod tests;
mod tries;

// Cheapest at the smallest deviation of any polygon that the coder can write within the budget.
pub fn closest<'a, C: Coder, M: Measure>(
    outline: &Outline,
    coder: &'a C,
    measure: &'a M,
    budget: u16,
    rows: &mut [Row<TwoPart<Bits, Deviation>>],
    list: &mut [u16],
) -> Result<PricedPolygon, Refusal>
    ensures rule { ClosestRule (C.Coder.table coder.now) (M.Measure.strays measure.now) budget (plain outline.now).points rows.old rows.new list.old list.new result }
    ensures best { length (plain outline.now).points ≤ length rows.old → length (plain outline.now).points ≤ length list.old → ClosestBest (C.Coder.table coder.now) (M.Measure.strays measure.now) budget (plain outline.now).points list.new result }
{
    check_room(outline, rows.len(), list.len())?;
    let task = Task {
        outline,
        coder,
        measure,
        budget,
    };
    let cost = task
        .fill_at(Fraction::largest(), rows)?
        .ok_or(Refusal::NoUsable)?;
    if cost.first.count > budget {
        return Err(Refusal::OverBudget);
    }
    let d = task.smallest_deviation(cost.second.value, rows)?;
    cheapest(
        outline,
        coder,
        measure,
        d.top(),
        d.bottom() as u64,
        rows,
        list,
    )
}
