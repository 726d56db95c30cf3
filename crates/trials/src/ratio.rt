use measure::Fraction;
use std::cmp::Ordering;

// A squared distance, over its own bottom. Two are equal where top and bottom are.
#[derive(Clone, Copy, PartialEq, Eq, Debug)]
pub struct Ratio {
    pub top: i64,
    pub bottom: i64,
}

pub const ZERO: Ratio = Ratio { top: 0, bottom: 1 };

impl From<Fraction> for Ratio {
    fn from(fraction: Fraction) -> Ratio {
        Ratio {
            top: fraction.top() as i64,
            bottom: fraction.bottom() as i64,
        }
    }
}

impl Ratio {
    // The order of the values. The products of a trial are small, so none of them wraps.
    fn by_value(self, other: Ratio) -> Ordering {
        let own = self.top.wrapping_mul(other.bottom);
        own.cmp(&other.top.wrapping_mul(self.bottom))
    }

    pub(crate) fn exceeds(self, other: Ratio) -> bool {
        self.by_value(other).is_gt()
    }

    // Whether the values are equal, as those of 2/1 and 16/8 are.
    pub(crate) fn equals(self, other: Ratio) -> bool {
        self.by_value(other).is_eq()
    }

    // The new ratio where it is greater, else this one.
    pub(crate) fn wider(self, new: Ratio) -> Ratio {
        if new.exceeds(self) { new } else { self }
    }
}
