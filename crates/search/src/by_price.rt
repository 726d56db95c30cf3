ghost use Rattle.std.specs.Prelude.{◌≤◌, length};
ghost use Rattle.measure.specs.Fractions.{fraction};
ghost use Rattle.outline.specs.Plain.{plain};
ghost use Rattle.search.specs.Cheapest.{CheapestRule, CheapestBest};

use crate::least;
use coding::Coder;
use cost::bits::Bits;
use cost::two_part::TwoPart;
use graph::Row;
use measure::{Fraction, Measure};
use outline::{Outline, Refusal};
use weighing::{Deviation, Priced};

// A polygon at the front of a list: its number of vertices, its bits, and how far it strays.
#[derive(Clone, Copy)]
pub struct PricedPolygon {
    pub vertices: usize,
    pub bits: u16,
    pub deviation: Fraction,
}

// Least with the priced weigher: the fewest bits within a tolerance, and of those the least deviation.
pub fn cheapest<'a, C: Coder, M: Measure>(
    outline: &Outline,
    coder: &'a C,
    measure: &'a M,
    top: u64,
    bottom: u64,
    rows: &mut [Row<TwoPart<Bits, Deviation>>],
    list: &mut [u16],
) -> Result<PricedPolygon, Refusal>
    ensures rule { CheapestRule (C.Coder.table coder.now) (M.Measure.strays measure.now) (fraction top bottom) (plain outline.now).points rows.old rows.new list.old list.new result }
    ensures best { length (plain outline.now).points ≤ length rows.old → length (plain outline.now).points ≤ length list.old → CheapestBest (C.Coder.table coder.now) (M.Measure.strays measure.now) (fraction top bottom) (plain outline.now).points list.new result }
{
    let weigher = Priced::new(coder, measure, top, bottom)?;
    let found = least(&weigher, outline, rows, list)?;
    let cost = found.cost;
    Ok(PricedPolygon {
        vertices: found.vertices,
        bits: cost.first.count,
        deviation: cost.second.value,
    })
}
