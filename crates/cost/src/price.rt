// What an edge weighs in bits.
ghost use Rattle.std.specs.Prelude.{◌≤◌};

mod bounds;

// 1 to 32 bits.
#[derive(Clone, Copy)]
pub struct Price {
    bits: u8,
    ghost some: { 1 ≤ bits },
    ghost few: { bits ≤ 32 },
}
