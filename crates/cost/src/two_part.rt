// A cost after a strict one, for where the strict one does not decide.
ghost use Rattle.cost.specs.TwoPart.{two_part};
ghost use Rattle.cost.specs.TwoPartLaws.{two_part_laws};

use crate::{Cost, StrictCost};

#[derive(Clone, Copy)]
pub struct TwoPart<A, B> {
    pub first: A,
    pub second: B,
}

impl<A: StrictCost, B: Cost> Cost for TwoPart<A, B> {
    type Weight = (A::Weight, B::Weight);

    ghost cost = { two_part A.StrictCost.strict B.Cost.cost };

    ghost laws = { two_part_laws A.StrictCost.strict B.Cost.cost A.StrictCost.laws B.Cost.laws };

    fn start() -> TwoPart<A, B> {
        TwoPart {
            first: A::start(),
            second: B::start(),
        }
    }

    fn join(self, weight: (A::Weight, B::Weight)) -> TwoPart<A, B> {
        TwoPart {
            first: self.first.join(weight.0),
            second: self.second.join(weight.1),
        }
    }

    fn above(self, other: TwoPart<A, B>) -> bool {
        self.first.above(other.first)
            || !other.first.above(self.first) && self.second.above(other.second)
    }
}
