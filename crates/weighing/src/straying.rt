ghost use Rattle.std.specs.Prelude.{◌≡◌};
ghost use Rattle.weighing.specs.Weighers.{straying_weight};

use super::deviation::Deviation;
use super::edge::edge_price;
use super::weigher::Weigher;
use coding::Coder;
use measure::{Fraction, Measure, deviation};
use outline::Outline;

// Weighs an edge by its deviation, where it has a code.
#[derive(Drop)]
pub struct Straying<'a, C, M> {
    coder: &'a C,
    measure: &'a M,
}

impl<'a, C: Coder, M: Measure> Straying<'a, C, M> {
    pub fn new(coder: &'a C, measure: &'a M) -> Straying<'a, C, M>
        ensures { (result.coder.now ≡ coder.now) × (result.measure.now ≡ measure.now) }
    {
        Straying { coder, measure }
    }
}

impl<'a, C: Coder, M: Measure> Weigher for Straying<'a, C, M> {
    type Weight = Fraction;

    type Cost = Deviation;

    ghost weight = { λ s. straying_weight (C.Coder.table s.coder.now) (M.Measure.strays s.measure.now) };

    fn weight(&self, outline: &Outline, i: usize, j: usize) -> Option<Fraction> {
        let _price = edge_price(self.coder, outline, i, j)?;
        deviation(self.measure, outline, i, j)
    }
}
