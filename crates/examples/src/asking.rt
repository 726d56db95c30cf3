// Asking for a polygon, with rows and a list for every outline.
ghost use Rattle.std.specs.Prelude.{length};
ghost use Rattle.closest.specs.Goals.{RuleFor};
ghost use Rattle.examples.specs.Steps.{Handed};
ghost use Rattle.outline.specs.Plain.{plain};

use closest::{Goal, best_polygon};
use coding::Coder;
use graph::Row;
use measure::Measure;
use outline::{Outline, Refusal};
use search::PricedPolygon;

// An answer, and the list that it left.
#[derive(Clone, Copy)]
pub struct Shown {
    pub answer: Result<PricedPolygon, Refusal>,
    pub list: [u16; 256],
}

// An outline has at most 256 points.
pub(crate) fn show<'a, C: Coder, M: Measure>(
    goal: Goal,
    outline: &Outline,
    coder: &'a C,
    measure: &'a M,
) -> Shown
    ensures { Handed (length (plain outline.now).points) (RuleFor goal (C.Coder.table coder.now) (M.Measure.strays measure.now) (plain outline.now).points) result }
{
    let mut rows = [Row::unreached(); 256];
    let mut list = [0; 256];
    let answer = best_polygon(goal, outline, coder, measure, &mut rows, &mut list);
    Shown { answer, list }
}
