ghost use Rattle.std.specs.Prelude.{◌≡◌, ◌^◌, ◌<◌, ◌≤◌, Some};
ghost use Rattle.measure.specs.Fractions.{fraction, taken, zero as zero_of, largest as largest_of, above, wider as wider_of, widened as widened_by};
ghost use Rattle.measure.specs.Order.{TotalOrder};
ghost use Rattle.measure.specs.Texts.{fraction_text};

use super::fraction::Fraction;
use outline::Refusal;
use std::fmt;

impl Fraction {
    // The fraction of two numbers, where they are in bounds.
    pub fn new(top: u64, bottom: u64) -> Result<Fraction, Refusal>
        ensures { result ≡ taken (fraction top bottom) }
    {
        if top >= 1 << 40 || bottom == 0 || bottom > 1 << 20 {
            return Err(Refusal::Tolerance);
        }
        Ok(Fraction::of(top, bottom as u32))
    }

    // The fraction of two numbers that are known to be in bounds.
    pub(crate) fn of(top: u64, bottom: u32) -> Fraction
        requires { (top < 2 ^ 40) × ((1 ≤ bottom) × (bottom ≤ 2 ^ 20)) }
        ensures { Some result ≡ fraction top bottom }
    {
        Fraction { top, bottom }
    }

    // 0/1
    pub fn zero() -> Fraction
        ensures { result ≡ zero_of }
    {
        Fraction { top: 0, bottom: 1 }
    }

    // The largest value: 2^40 - 1 over 1.
    pub fn largest() -> Fraction
        ensures { result ≡ largest_of }
    {
        Fraction {
            top: (1 << 40) - 1,
            bottom: 1,
        }
    }

    pub fn top(self) -> u64
        ensures { result ≡ self.top }
    {
        self.top
    }

    pub fn bottom(self) -> u32
        ensures { result ≡ self.bottom }
    {
        self.bottom
    }

    // Whether the value is greater than another's.
    pub fn is_above(self, other: Fraction) -> bool
        ensures { result ≡ above self other }
    {
        other.top * (self.bottom as u64) < self.top * (other.bottom as u64)
    }

    // The new fraction where it is greater, else this one.
    pub fn wider(self, new: Fraction) -> Fraction
        ensures { result ≡ wider_of self new }
    {
        if new.is_above(self) { new } else { self }
    }

    // The same for a fraction that may be missing.
    pub fn widened(self, new: Option<Fraction>) -> Fraction
        ensures { result ≡ widened_by self new }
    {
        new.map_or(self, |f| self.wider(f))
    }

    // Comparing by cross products is a total order of the values.
    pub fn order_is_total()
        ensures { TotalOrder }
    {}
}

impl fmt::Display for Fraction {
    ghost output = { λ f. Some (fraction_text f) };

    fn fmt<W: fmt::Write>(&self, f: &mut fmt::Formatter<W>) -> fmt::Result {
        write!(f, "{}/{}", self.top, self.bottom)
    }
}
