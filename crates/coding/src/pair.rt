ghost use Rattle.std.specs.Prelude.{◌≡◌, Bool, List, Option as Maybe};
ghost use Rattle.coding.specs.Kinds.{pair, either, roomy as roomy_of, marker as marker_of, side};
ghost use Rattle.coding.specs.Rows.{row_bits};
ghost use Rattle.coding.specs.Tables.{price_of, spelled, Reads};
ghost use Rattle.coding.specs.Pairs.{pair_codes};

use super::bit_row::BitRow;
use super::coder::Coder;

// Two coders behind a bit that says which: 0 and the first's code or 1 and the second's, whichever is shorter.
#[derive(Clone, Copy)]
pub struct Pair<A, B> {
    pub first: A,
    pub second: B,
}

// The most bits that a code has.
const LONGEST: u8 = 32;

// The price of a code that leaves room for one bit more.
fn roomy(price: Option<u8>) -> Option<u8>
    ensures { (a : Maybe (List Bool)) → price ≡ price_of a → result ≡ price_of (roomy_of a) }
{
    price.filter(|n| *n < LONGEST)
}

// The first bit of a pair's code and the length of the rest, by the prices of the two.
fn chosen(first: Option<u8>, second: Option<u8>) -> Option<(bool, u8)>
    ensures { (a b : Maybe (List Bool)) → first ≡ price_of a → second ≡ price_of b → result ≡ marker_of (either (roomy_of a) (roomy_of b)) }
{
    match (roomy(first), roomy(second)) {
        (Some(a), Some(b)) if b < a => Some((true, b)),
        (Some(a), _) => Some((false, a)),
        (None, Some(b)) => Some((true, b)),
        (None, None) => None,
    }
}

impl<A: Coder, B: Coder> Pair<A, B> {
    // The first bit of a displacement's code and the length of the rest.
    fn marker(&self, dx: i16, dy: i16) -> Option<(bool, u8)>
        ensures { result ≡ marker_of (pair (A.Coder.table self.now.first) (B.Coder.table self.now.second) dx dy) }
    {
        chosen(self.first.price(dx, dy), self.second.price(dx, dy))
    }

    fn code_of(&self, second: bool, dx: i16, dy: i16) -> Option<(u32, u8)>
        ensures { result ≡ spelled (side second (A.Coder.table self.now.first) (B.Coder.table self.now.second) dx dy) }
    {
        if second {
            self.second.code(dx, dy)
        } else {
            self.first.code(dx, dy)
        }
    }

    fn read_of(&self, second: bool, row: BitRow<'_>) -> Option<(i16, i16, u8)>
        ensures { Reads (side second (A.Coder.table self.now.first) (B.Coder.table self.now.second)) (row_bits row.entry) result }
    {
        if second {
            self.second.read(row)
        } else {
            self.first.read(row)
        }
    }
}

impl<A: Coder, B: Coder> Coder for Pair<A, B> {
    ghost table = { λ s. pair (A.Coder.table s.first) (B.Coder.table s.second) };

    ghost codes = { λ s. pair_codes (A.Coder.table s.first) (B.Coder.table s.second) (A.Coder.codes s.first) (B.Coder.codes s.second) };

    fn price(&self, dx: i16, dy: i16) -> Option<u8> {
        let (_, n) = self.marker(dx, dy)?;
        Some(n + 1)
    }

    fn code(&self, dx: i16, dy: i16) -> Option<(u32, u8)> {
        let (second, _) = self.marker(dx, dy)?;
        let (bits, n) = self.code_of(second, dx, dy)?;
        Some((((second as u32) << n) + bits, n + 1))
    }

    fn read(&self, row: BitRow<'_>) -> Option<(i16, i16, u8)> {
        let second = row.bit(0)?;
        let (dx, dy, n) = self.read_of(second, row.skip(1))?;
        let (used, _) = self.marker(dx, dy)?;
        (used == second).then_some((dx, dy, n + 1))
    }
}
