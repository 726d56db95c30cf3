// The tolerances still to try.
ghost use Rattle.std.specs.Prelude.{◌≡◌};
ghost use Rattle.closest.specs.Gaps.{inside};

use measure::Fraction;

// Tolerances above one known to be too low, if any, and below a deviation that is reached.
#[derive(Clone, Copy)]
pub(crate) struct Gap {
    pub(crate) low: Option<Fraction>,
    pub(crate) high: Fraction,
}

impl Gap {
    pub(crate) fn holds(self, deviation: Fraction) -> bool
        ensures { result ≡ inside self deviation }
    {
        self.high.is_above(deviation) && self.low.is_none_or(|low| deviation.is_above(low))
    }
}
