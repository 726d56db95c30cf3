ghost use Rattle.std.specs.Prelude.{◌^◌, ◌<◌, ◌≤◌};

// A squared distance in square pels. It is never reduced: 2/1 and 16/8 are two answers of one value.
#[derive(Clone, Copy, PartialEq, Eq, Debug)]
pub struct Fraction {
    pub(crate) top: u64,
    pub(crate) bottom: u32,
    ghost small: { top < 2 ^ 40 },
    ghost some: { 1 ≤ bottom },
    ghost few: { bottom ≤ 2 ^ 20 },
}
