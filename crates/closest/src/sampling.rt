ghost use Rattle.std.specs.Prelude.{◌≡◌, min, take, Some, None};
ghost use Rattle.closest.specs.Gaps.{Among, Grown};

use crate::sample::{ROOM, Sample};
use measure::Fraction;

impl Sample {
    // All places hold the first fraction, but only one of them counts.
    pub(crate) fn new(first: Fraction) -> Sample
        ensures { Grown None first result }
    {
        Sample {
            kept: [first; ROOM],
            seen: 1,
            seed: 1,
        }
    }

    // A place for each fraction while there is room, and then one by chance, or none.
    pub(crate) fn with(self, new: Fraction) -> Sample
        ensures { Grown (Some self) new result }
    {
        let mut grown = self;
        grown.seen = self.seen.saturating_add(1);
        grown.seed = self.seed.wrapping_mul(1664525).wrapping_add(1013904223);
        let place = if self.seen < ROOM {
            self.seen
        } else {
            (grown.seed >> 8) as usize % grown.seen
        };
        if place < ROOM {
            grown.kept[place] = new;
        }
        grown
    }

    // The places that count.
    fn counted(&self) -> &[Fraction]
        ensures { result.now ≡ take (min self.now.seen 15) self.now.kept }
    {
        &self.kept[..self.seen.min(ROOM)]
    }

    // How far a fraction's rank is from the middle.
    fn off_middle(&self, fraction: Fraction) -> usize {
        let counted = self.counted();
        let below = counted
            .iter()
            .filter(|kept| fraction.is_above(**kept))
            .count();
        below.abs_diff(counted.len() / 2)
    }

    // The fraction of the middle rank.
    pub(crate) fn middle(&self) -> Fraction
        ensures { Among self.now result }
    {
        self.counted()
            .iter()
            .copied()
            .min_by_key(|fraction| self.off_middle(*fraction))
            .unwrap_or(self.kept[0])
    }
}
