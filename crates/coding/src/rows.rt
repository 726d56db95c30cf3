ghost use Rattle.std.specs.Prelude.{◌≡◌, ◌-◌, ◌^◌, length, take, drop};
ghost use Rattle.coding.specs.Bits.{bits_of, front_number};
ghost use Rattle.coding.specs.Rows.{row_bits};
ghost use Rattle.std.specs.List.{slice_get};

use super::bit_row::BitRow;

// The most bits that are read as a number.
const WIDEST: u8 = 32;

impl<'a> BitRow<'a> {
    // All bits of some bytes, as far as their number fits.
    pub fn new(bytes: &'a [u8]) -> BitRow<'a>
        ensures { row_bits result ≡ take (2 ^ 64 - 1) (bits_of bytes.now) }
    {
        BitRow {
            bytes,
            from: 0,
            len: bytes.len().saturating_mul(8),
        }
    }

    pub fn len(self) -> usize
        ensures { result ≡ length (row_bits self.entry) }
    {
        self.len
    }

    // What is left of the row after its first n bits.
    pub fn skip(self, n: usize) -> BitRow<'a>
        ensures { row_bits result ≡ drop n (row_bits self.entry) }
    {
        let n = n.min(self.len);
        BitRow {
            bytes: self.bytes,
            from: self.from + n,
            len: self.len - n,
        }
    }

    // A bit by its number from 0, or none past the end.
    pub fn bit(self, k: usize) -> Option<bool>
        ensures { result ≡ slice_get (row_bits self.entry) k }
    {
        if k >= self.len {
            return None;
        }
        let at = self.from + k;
        Some((self.bytes[at / 8] >> (7 - at % 8)) % 2 == 1)
    }

    // The first n bits as a number, or none where the row is shorter or the number wider than 32 bits.
    pub fn number(self, n: u8) -> Option<u32>
        ensures { result ≡ front_number n (row_bits self.entry) }
    {
        if n > WIDEST || n as usize > self.len {
            return None;
        }
        let mut number: u32 = 0;
        for k in 0..n {
            let bit = self.bit(k as usize)?;
            number = 2 * number + bit as u32;
        }
        Some(number)
    }
}
