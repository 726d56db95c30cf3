ghost use Rattle.std.specs.Prelude.{◌≡◌, ◌<◌, true, false, ℤ, MatchOption, ◌≢◌};
ghost use Rattle.coding.specs.Bits.{low_bits};
ghost use Rattle.coding.specs.Kinds.{flat, twos};
ghost use Rattle.coding.specs.Tables.{near as is_near};
ghost use Rattle.coding.specs.Flats.{flat_codes};

use super::bit_row::BitRow;
use super::coder::Coder;
use std::cmp::Ordering;

// Both numbers of a displacement in eleven bits of two's complement each.
#[derive(Clone, Copy)]
pub struct Flat;

// Whether a number is one of -1,023 to 1,023.
fn near(z: i16) -> bool
    ensures { result ≡ is_near z }
{
    (-1023..=1023).contains(&z)
}

// The eleven bits of a number, where a displacement can have it.
fn field(z: i16) -> Option<u32>
    ensures { MatchOption result (is_near z ≡ false) (λ n. (is_near z ≡ true) × (n < 2048) × (low_bits 11 n ≡ twos 11 z)) }
{
    near(z).then_some(z.rem_euclid(2048) as u32)
}

// The bits of -1,024, which is no number of a displacement.
const LOWEST: u32 = 1024;

// The number of eleven bits, where a displacement can have it.
fn signed(bits: u32) -> Option<i16>
    requires { bits < 2048 }
    ensures { MatchOption result ((z : ℤ) → is_near z ≡ true → twos 11 z ≢ low_bits 11 bits) (λ z. (is_near z ≡ true) × (twos 11 z ≡ low_bits 11 bits)) }
{
    match bits.cmp(&LOWEST) {
        Ordering::Less => Some(bits as i16),
        Ordering::Equal => None,
        Ordering::Greater => Some(bits as i16 - 2048),
    }
}

impl Coder for Flat {
    ghost table = { λ _. flat };

    ghost codes = { λ s. flat_codes };

    fn price(&self, dx: i16, dy: i16) -> Option<u8> {
        (near(dx) && near(dy)).then_some(22)
    }

    fn code(&self, dx: i16, dy: i16) -> Option<(u32, u8)> {
        let cols = field(dx)?;
        let rows = field(dy)?;
        Some((cols * 2048 + rows, 22))
    }

    fn read(&self, row: BitRow<'_>) -> Option<(i16, i16, u8)> {
        let bits = row.number(22)?;
        let dx = signed(bits / 2048)?;
        let dy = signed(bits % 2048)?;
        Some((dx, dy, 22))
    }
}
