ghost use Rattle.std.specs.Prelude.{◌≡◌, ℕ, ℤ};
ghost use Rattle.coding.specs.Rows.{row_bits};
ghost use Rattle.coding.specs.Tables.{Table, Codes, Reads, price_of, spelled};

use super::bit_row::BitRow;

// A table of codes for displacements, no code the beginning of another. Price, code and read answer from the table alone.
pub trait Coder {
    ghost table: { Self → Table };

    // The length of a displacement's code, or none.
    fn price(&self, dx: i16, dy: i16) -> Option<u8>
        ensures { result ≡ price_of (table self.now dx dy) };

    // The bits of a displacement's code together with their number, or none.
    fn code(&self, dx: i16, dy: i16) -> Option<(u32, u8)>
        ensures { result ≡ spelled (table self.now dx dy) };

    // The displacement whose code begins a row of bits, with the code's length, or none.
    fn read(&self, row: BitRow<'_>) -> Option<(i16, i16, u8)>
        ensures { Reads (table self.now) (row_bits row.entry) result };

    ghost codes: { (s : Self) → Codes (table s) };
}
