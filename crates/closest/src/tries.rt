// Tries at one tolerance.
ghost use Rattle.std.specs.Prelude.{◌≡◌, ◌<◌, length, drop, MatchResult};
ghost use Rattle.closest.specs.Gaps.{affordable as affordable_of, Tried};
ghost use Rattle.outline.specs.Plain.{plain};
ghost use Rattle.search.specs.Best.{LeastCost};
ghost use Rattle.search.specs.Cheapest.{priced_cost};
ghost use Rattle.search.specs.Rules.{RowsFilled};
ghost use Rattle.weighing.specs.Weighers.{priced_weight};

use crate::task::Task;
use coding::Coder;
use cost::bits::Bits;
use cost::two_part::TwoPart;
use graph::Row;
use measure::{Fraction, Measure};
use outline::Refusal;
use search::fill_rows;
use weighing::{Deviation, Priced};

impl<'a, 'o, C: Coder, M: Measure> Task<'a, 'o, C, M> {
    // Fills the rows at a tolerance, and answers the last point's cost, if it is reached.
    pub(crate) fn fill_at(
        &self,
        tolerance: Fraction,
        rows: &mut [Row<TwoPart<Bits, Deviation>>],
    ) -> Result<Option<TwoPart<Bits, Deviation>>, Refusal>
        ensures rule { RowsFilled priced_cost (priced_weight (C.Coder.table self.now.coder.now) (M.Measure.strays self.now.measure.now) tolerance (plain self.now.outline.now).points) (length (plain self.now.outline.now).points) rows.old rows.new result }
        ensures best { MatchResult result (λ cost. LeastCost priced_cost (priced_weight (C.Coder.table self.now.coder.now) (M.Measure.strays self.now.measure.now) tolerance (plain self.now.outline.now).points) (length (plain self.now.outline.now).points) cost) (λ _. length rows.old < length (plain self.now.outline.now).points) }
    {
        let weigher = Priced::within(self.coder, self.measure, tolerance);
        fill_rows(&weigher, self.outline, rows)
    }

    // The deviation of the cheapest polygon at a tolerance, where its bits are within the budget.
    pub(crate) fn try_at(
        &self,
        tolerance: Fraction,
        rows: &mut [Row<TwoPart<Bits, Deviation>>],
    ) -> Result<Option<Fraction>, Refusal>
        ensures tried { MatchResult result (λ found. Tried (C.Coder.table self.now.coder.now) (M.Measure.strays self.now.measure.now) (plain self.now.outline.now).points self.now.budget tolerance found) (λ _. length rows.old < length (plain self.now.outline.now).points) }
        ensures further { drop (length (plain self.now.outline.now).points) rows.new ≡ drop (length (plain self.now.outline.now).points) rows.old }
    {
        let reached = self.fill_at(tolerance, rows)?;
        Ok(affordable(reached, self.budget))
    }
}

// The deviation reached, where its bits are within the budget.
fn affordable(reached: Option<TwoPart<Bits, Deviation>>, budget: u16) -> Option<Fraction>
    ensures { result ≡ affordable_of budget reached }
{
    reached
        .filter(|cost| cost.first.count <= budget)
        .map(|cost| cost.second.value)
}
