ghost use Rattle.std.specs.Prelude.{◌≡◌};
ghost use Rattle.measure.specs.Deviation.{edge_deviation, kept_within, within};
ghost use Rattle.outline.specs.Plain.{plain};

use super::fraction::Fraction;
use super::meter::Measure;
use outline::Outline;

// The deviation of edge i, j where it is within a tolerance. It measures no further than the first point past that.
pub fn deviation_within<M: Measure>(
    measure: &M,
    outline: &Outline,
    i: usize,
    j: usize,
    tolerance: Fraction,
) -> Option<Fraction>
    ensures { result ≡ kept_within tolerance (edge_deviation (M.Measure.strays measure.now) (plain outline.now).points i j) }
{
    if i >= j || j >= outline.len() {
        return None;
    }
    let mut widest = Fraction::zero();
    for k in i + 1..j {
        widest = widest.widened(measure.strays(outline, i, k, j));
        if widest.is_above(tolerance) {
            return None;
        }
    }
    Some(widest)
}

// Whether i, j is an edge of the outline whose deviation is not above a tolerance.
pub fn is_within<M: Measure>(
    measure: &M,
    outline: &Outline,
    i: usize,
    j: usize,
    tolerance: Fraction,
) -> bool
    ensures { result ≡ within tolerance (edge_deviation (M.Measure.strays measure.now) (plain outline.now).points i j) }
{
    deviation_within(measure, outline, i, j, tolerance).is_some()
}
