// How a price is made, and what it holds.
ghost use Rattle.std.specs.Prelude.{◌≡◌};
ghost use Rattle.cost.specs.Prices.{priced};

use super::Price;

impl Price {
    pub fn new(bits: u8) -> Option<Price>
        ensures { result ≡ priced bits }
    {
        if bits < 1 || bits > 32 {
            return None;
        }
        Some(Price { bits })
    }

    pub fn bits(self) -> u8
        ensures { result ≡ self.bits }
    {
        self.bits
    }
}
