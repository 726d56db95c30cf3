ghost use Rattle.std.specs.Prelude.{◌≤◌, length};
ghost use Rattle.outline.specs.Plain.{plain};
ghost use Rattle.search.specs.Best.{BestAnswered};
ghost use Rattle.search.specs.Cheapest.{finest_found, OwnDeviation};
ghost use Rattle.search.specs.Rules.{Answered};
ghost use Rattle.weighing.specs.Deviations.{deviation_cost};
ghost use Rattle.weighing.specs.Weighers.{straying_weight};

use crate::least;
use coding::Coder;
use graph::Row;
use measure::{Fraction, Measure};
use outline::{Outline, Refusal};
use weighing::{Deviation, Straying};

// A polygon at the front of a list: its number of vertices, and how far it strays.
#[derive(Clone, Copy)]
pub struct StrayingPolygon {
    pub vertices: usize,
    pub deviation: Fraction,
}

// Least with the straying weigher: the least deviation of any polygon that the coder can write.
pub fn finest<'a, C: Coder, M: Measure>(
    outline: &Outline,
    coder: &'a C,
    measure: &'a M,
    rows: &mut [Row<Deviation>],
    list: &mut [u16],
) -> Result<StrayingPolygon, Refusal>
    ensures rule { Answered deviation_cost (straying_weight (C.Coder.table coder.now) (M.Measure.strays measure.now) (plain outline.now).points) (length (plain outline.now).points) rows.old rows.new list.old list.new (finest_found result) }
    ensures best { length (plain outline.now).points ≤ length rows.old → length (plain outline.now).points ≤ length list.old → BestAnswered deviation_cost (straying_weight (C.Coder.table coder.now) (M.Measure.strays measure.now) (plain outline.now).points) (length (plain outline.now).points) list.new (finest_found result) × OwnDeviation (M.Measure.strays measure.now) (plain outline.now).points list.new result }
{
    let found = least(&Straying::new(coder, measure), outline, rows, list)?;
    Ok(StrayingPolygon {
        vertices: found.vertices,
        deviation: found.cost.value,
    })
}
