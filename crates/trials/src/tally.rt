use super::edges::{Edges, Weight, weigh};
use super::ratio::Ratio;

// More than the bits of fifteen edges.
pub const ROOM: usize = 352;

// For each number of bits, the polygon that strays least of those that take as many.
#[derive(Clone, Copy)]
pub struct Tally {
    least: [Option<Weight>; ROOM],
}

impl Tally {
    // Over every polygon that ends at a point, one by one.
    pub(crate) fn of(edges: &Edges, last: usize) -> Tally {
        let mut tally = Tally {
            least: [None; ROOM],
        };
        for set in 0..1u32 << last.saturating_sub(1).min(14) {
            if let Some(weight) = weigh(edges, last, set << 1) {
                tally.note(weight);
            }
        }
        tally
    }

    fn note(&mut self, weight: Weight) {
        if let Some(least) = self.least.get_mut(weight.bits) {
            if least.is_none_or(|old| old.strays.exceeds(weight.strays)) {
                *least = Some(weight);
            }
        }
    }

    // Whether there is no polygon.
    pub(crate) fn is_empty(&self) -> bool {
        self.least.iter().all(|least| least.is_none())
    }

    // Whether a polygon takes this many bits.
    pub(crate) fn has(&self, bits: usize) -> bool {
        self.least.get(bits).is_some_and(|least| least.is_some())
    }

    // The fewest bits within a tolerance, and the least straying with as many.
    pub(crate) fn cheapest(&self, tolerance: Ratio) -> Option<Weight> {
        let mut weights = self.least.iter().copied().flatten();
        weights.find(|weight| !weight.strays.exceeds(tolerance))
    }

    // The least straying within a budget, and the fewest bits with as little.
    pub(crate) fn closest(&self, budget: usize) -> Option<Weight> {
        let within = self.least.iter().take(budget.saturating_add(1));
        within.copied().flatten().reduce(|best, new| {
            if best.strays.exceeds(new.strays) {
                new
            } else {
                best
            }
        })
    }
}
