ghost use Rattle.std.specs.Prelude.{◌≡◌, length};

use measure::Fraction;

// The most fractions kept.
pub(crate) const ROOM: usize = 15;

// Some of the fractions seen, each with the same chance.
#[derive(Clone, Copy)]
pub(crate) struct Sample {
    pub(crate) kept: [Fraction; ROOM],
    pub(crate) seen: usize,
    pub(crate) seed: u32,
    ghost long: { length kept ≡ 15 },
}
