// The tolerance to try next. Any candidate is right: one near the median of all of them is quick.
ghost use Rattle.std.specs.Prelude.{◌≡◌};
ghost use Rattle.closest.specs.Gaps.{candidate as candidate_of, Drawn, Grown, Next};
ghost use Rattle.outline.specs.Plain.{plain};

use crate::gap::Gap;
use crate::sample::Sample;
use crate::task::Task;
use coding::Coder;
use measure::{Fraction, Measure, deviation_within};
use weighing::edge_price;

impl<'a, 'o, C: Coder, M: Measure> Task<'a, 'o, C, M> {
    // The deviation of edge i, j, where it has a price and the gap holds the deviation.
    fn candidate(&self, gap: Gap, i: usize, j: usize) -> Option<Fraction>
        ensures { result ≡ candidate_of (C.Coder.table self.now.coder.now) (M.Measure.strays self.now.measure.now) (plain self.now.outline.now).points gap i j }
    {
        // Asking the price takes no look at the points between.
        let _price = edge_price(self.coder, self.outline, i, j)?;
        let deviation = deviation_within(self.measure, self.outline, i, j, gap.high)?;
        gap.holds(deviation).then_some(deviation)
    }

    // Adds the candidates of the edges that end at a point.
    fn sample_to(&self, gap: Gap, to: usize, drawn: Option<Sample>) -> Option<Sample>
        requires { Drawn (candidate_of (C.Coder.table self.now.coder.now) (M.Measure.strays self.now.measure.now) (plain self.now.outline.now).points gap) to 0 drawn }
        ensures { Drawn (candidate_of (C.Coder.table self.now.coder.now) (M.Measure.strays self.now.measure.now) (plain self.now.outline.now).points gap) to to result }
    {
        let mut sample = drawn;
        for from in 0..to {
            if let Some(deviation) = self.candidate(gap, from, to) {
                sample = Some(with(sample, deviation));
            }
        }
        sample
    }

    // A candidate near the median of all, where there is one.
    pub(crate) fn next_tolerance(&self, gap: Gap) -> Option<Fraction>
        ensures { Next (C.Coder.table self.now.coder.now) (M.Measure.strays self.now.measure.now) (plain self.now.outline.now).points gap result }
    {
        let mut sample = None;
        for to in 0..self.outline.len() {
            sample = self.sample_to(gap, to, sample);
        }
        Some(sample?.middle())
    }
}

// A sample with a fraction more.
fn with(sample: Option<Sample>, new: Fraction) -> Sample
    ensures { Grown sample new result }
{
    match sample {
        Some(old) => old.with(new),
        None => Sample::new(new),
    }
}
