ghost use Rattle.std.specs.Prelude.{◌≡◌, Some, None, MatchResult};
ghost use Rattle.measure.specs.Fractions.{fraction};
ghost use Rattle.outline.specs.declared.refusal.Refusal.TheVariants.{Tolerance};
ghost use Rattle.weighing.specs.Weighers.{priced_weight};

use super::deviation::Deviation;
use super::edge::edge_price;
use super::weigher::Weigher;
use coding::Coder;
use cost::bits::Bits;
use cost::price::Price;
use cost::two_part::TwoPart;
use measure::{Fraction, Measure, deviation_within};
use outline::{Outline, Refusal};

// Weighs an edge by its bits, then by its deviation, where it has a code and is within a tolerance.
#[derive(Drop)]
pub struct Priced<'a, C, M> {
    coder: &'a C,
    measure: &'a M,
    tolerance: Fraction,
}

impl<'a, C: Coder, M: Measure> Priced<'a, C, M> {
    // A tolerance of two numbers that no fraction has is refused.
    pub fn new(
        coder: &'a C,
        measure: &'a M,
        top: u64,
        bottom: u64,
    ) -> Result<Priced<'a, C, M>, Refusal>
        ensures { MatchResult result (λ p. (p.coder.now ≡ coder.now) × (p.measure.now ≡ measure.now) × (Some p.tolerance ≡ fraction top bottom)) (λ e. (e ≡ Tolerance) × (fraction top bottom ≡ None)) }
    {
        Ok(Priced::within(coder, measure, Fraction::new(top, bottom)?))
    }

    pub fn within(coder: &'a C, measure: &'a M, tolerance: Fraction) -> Priced<'a, C, M>
        ensures { (result.coder.now ≡ coder.now) × (result.measure.now ≡ measure.now) × (result.tolerance ≡ tolerance) }
    {
        Priced {
            coder,
            measure,
            tolerance,
        }
    }
}

impl<'a, C: Coder, M: Measure> Weigher for Priced<'a, C, M> {
    type Weight = (Price, Fraction);

    type Cost = TwoPart<Bits, Deviation>;

    ghost weight = { λ s. priced_weight (C.Coder.table s.coder.now) (M.Measure.strays s.measure.now) s.tolerance };

    fn weight(&self, outline: &Outline, i: usize, j: usize) -> Option<(Price, Fraction)> {
        // Asking the price takes no look at the points between.
        let price = Price::new(edge_price(self.coder, outline, i, j)?)?;
        let deviation = deviation_within(self.measure, outline, i, j, self.tolerance)?;
        Some((price, deviation))
    }
}
