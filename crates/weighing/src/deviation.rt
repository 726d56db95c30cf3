ghost use Rattle.weighing.specs.Deviations.{deviation_cost};
ghost use Rattle.weighing.specs.DeviationLaws.{deviation_laws};

use cost::Cost;
use measure::Fraction;

// The deviation of a path. It is not strict: a greater fraction that joins two deviations makes them equal.
#[derive(Clone, Copy)]
pub struct Deviation {
    pub value: Fraction,
}

impl Cost for Deviation {
    type Weight = Fraction;

    ghost cost = { deviation_cost };

    ghost laws = { deviation_laws };

    fn start() -> Deviation {
        Deviation {
            value: Fraction::zero(),
        }
    }

    fn join(self, weight: Fraction) -> Deviation {
        Deviation {
            value: self.value.wider(weight),
        }
    }

    fn above(self, other: Deviation) -> bool {
        self.value.is_above(other.value)
    }
}
