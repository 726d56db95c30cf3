ghost use Rattle.std.specs.Prelude.{◌≡◌, ◌≤◌, length};

use super::point::Point;

// The most points that an outline has.
pub const ROOM: usize = 256;

// Points in fixed memory, of which the first `len` count.
#[derive(Clone, Copy)]
pub struct Points {
    pub(crate) at: [Point; ROOM],
    pub(crate) len: usize,
    ghost long: { length at ≡ 256 },
    ghost few: { len ≤ 256 },
}
