// The best polygon for a goal.
ghost use Rattle.std.specs.Prelude.{◌≤◌, length, IfOk};
ghost use Rattle.closest.specs.Goals.{RuleFor, BestFor};
ghost use Rattle.outline.specs.Plain.{plain};

use crate::closest;
use coding::Coder;
use cost::bits::Bits;
use cost::two_part::TwoPart;
use graph::Row;
use measure::Measure;
use outline::{Outline, Refusal};
use search::{PricedPolygon, cheapest};
use weighing::Deviation;

// What is asked of a polygon: the fewest bits within a tolerance, or the least deviation within a budget of bits.
#[derive(Clone, Copy, PartialEq, Eq, Debug)]
pub enum Goal {
    Tolerance { top: u64, bottom: u64 },
    Budget(u16),
}

// Cheapest or closest, as the goal says.
pub fn best_polygon<'a, C: Coder, M: Measure>(
    goal: Goal,
    outline: &Outline,
    coder: &'a C,
    measure: &'a M,
    rows: &mut [Row<TwoPart<Bits, Deviation>>],
    list: &mut [u16],
) -> Result<PricedPolygon, Refusal>
    ensures rule { RuleFor goal (C.Coder.table coder.now) (M.Measure.strays measure.now) (plain outline.now).points rows.old rows.new list.old list.new result }
    ensures best { length (plain outline.now).points ≤ length rows.old → length (plain outline.now).points ≤ length list.old → BestFor goal (C.Coder.table coder.now) (M.Measure.strays measure.now) (plain outline.now).points list.new result }
    ensures within { IfOk result (λ a. a.vertices ≤ length list.old) }
{
    match goal {
        Goal::Tolerance { top, bottom } => {
            cheapest(outline, coder, measure, top, bottom, rows, list)
        }
        Goal::Budget(bits) => closest(outline, coder, measure, bits, rows, list),
    }
}
