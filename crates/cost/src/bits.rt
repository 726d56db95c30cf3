// The bits that a path takes.
ghost use Rattle.cost.specs.Bits.{bits_cost};
ghost use Rattle.std.proofs.Common.{rules};
ghost use Rattle.cost.specs.BitsLaws.{bits_strict};

use crate::price::Price;
use crate::{Cost, StrictCost};

#[derive(Clone, Copy)]
pub struct Bits {
    pub count: u16,
}

impl Cost for Bits {
    type Weight = Price;

    ghost cost = { bits_cost };

    ghost laws = { Prim.search rules };

    fn start() -> Bits {
        Bits { count: 0 }
    }

    fn join(self, weight: Price) -> Bits {
        // No search adds up to 65535 bits.
        Bits {
            count: self.count.saturating_add(u16::from(weight.bits())),
        }
    }

    fn above(self, other: Bits) -> bool {
        self.count > other.count
    }
}

// The same three, since more bits stay more whatever joins both.
impl StrictCost for Bits {
    type Weight = Price;

    ghost strict = { bits_cost };

    ghost laws = { bits_strict };

    fn start() -> Bits {
        <Bits as Cost>::start()
    }

    fn join(self, weight: Price) -> Bits {
        <Bits as Cost>::join(self, weight)
    }

    fn above(self, other: Bits) -> bool {
        <Bits as Cost>::above(self, other)
    }
}
