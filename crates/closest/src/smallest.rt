// The smallest deviation of any polygon that fits.
ghost use Rattle.std.specs.Prelude.{◌≡◌, ◌<◌, length, drop, MatchResult};
ghost use Rattle.closest.specs.Closest.{Smallest};
ghost use Rattle.closest.specs.Gaps.{Reached};
ghost use Rattle.outline.specs.Plain.{plain};

use crate::gap::Gap;
use crate::task::Task;
use coding::Coder;
use cost::bits::Bits;
use cost::two_part::TwoPart;
use graph::Row;
use measure::{Fraction, Measure};
use outline::Refusal;
use weighing::Deviation;

impl<'a, 'o, C: Coder, M: Measure> Task<'a, 'o, C, M> {
    // Narrows the gap below a deviation that is reached, until no edge deviates by a value inside it.
    pub(crate) fn smallest_deviation(
        &self,
        first: Fraction,
        rows: &mut [Row<TwoPart<Bits, Deviation>>],
    ) -> Result<Fraction, Refusal>
        requires { Reached (C.Coder.table self.now.coder.now) (M.Measure.strays self.now.measure.now) (plain self.now.outline.now).points self.now.budget first }
        ensures smallest { MatchResult result (λ d. Smallest (C.Coder.table self.now.coder.now) (M.Measure.strays self.now.measure.now) (plain self.now.outline.now).points self.now.budget d) (λ _. length rows.old < length (plain self.now.outline.now).points) }
        ensures further { drop (length (plain self.now.outline.now).points) rows.new ≡ drop (length (plain self.now.outline.now).points) rows.old }
    {
        let mut gap = Gap {
            low: None,
            high: first,
        };
        while let Some(tolerance) = self.next_tolerance(gap) {
            match self.try_at(tolerance, rows)? {
                Some(deviation) => gap.high = deviation,
                None => gap.low = Some(tolerance),
            }
        }
        Ok(gap.high)
    }
}
