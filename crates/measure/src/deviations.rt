ghost use Rattle.std.specs.Prelude.{◌≡◌, length, MatchResult};
ghost use Rattle.measure.specs.Deviation.{edge_deviation, polygon_deviation};
ghost use Rattle.measure.specs.Widest.{DeviationIsWidest, PolygonIsWidest};
ghost use Rattle.outline.specs.Plain.{plain};
ghost use Rattle.outline.specs.Polygon.{Polygon};
ghost use Rattle.outline.specs.declared.refusal.Refusal.TheVariants.{NoPolygon};

use super::fraction::Fraction;
use super::meter::Measure;
use super::tolerance::deviation_within;
use outline::{Outline, Refusal};

// The deviation of edge i, j.
pub fn deviation<M: Measure>(measure: &M, outline: &Outline, i: usize, j: usize) -> Option<Fraction>
    ensures { result ≡ edge_deviation (M.Measure.strays measure.now) (plain outline.now).points i j }
{
    deviation_within(measure, outline, i, j, Fraction::largest())
}

// The deviation of a polygon of the outline.
pub fn polygon_deviation<M: Measure>(
    measure: &M,
    outline: &Outline,
    list: &[u16],
) -> Result<Fraction, Refusal>
    ensures { MatchResult result (λ d. Polygon (length (plain outline.now).points) list.now × (d ≡ polygon_deviation (edge_deviation (M.Measure.strays measure.now) (plain outline.now).points) list.now)) (λ e. (Polygon (length (plain outline.now).points) list.now → ⊥) × (e ≡ NoPolygon)) }
{
    if !outline.is_polygon(list) {
        return Err(Refusal::NoPolygon);
    }
    let mut widest = Fraction::zero();
    // The list begins with point 0, which no edge leads to from itself.
    let mut from = 0;
    for vertex in list {
        let to = *vertex as usize;
        widest = widest.widened(deviation(measure, outline, from, to));
        from = to;
    }
    Ok(widest)
}

// The deviation of an edge is 0/1 or a fraction of one of its points, and none of them is above it.
pub fn deviation_is_widest()
    ensures { DeviationIsWidest }
{}

// The deviation of a polygon is 0/1 or the deviation of one of its edges, and none of them is above it.
pub fn polygon_is_widest()
    ensures { PolygonIsWidest }
{}
