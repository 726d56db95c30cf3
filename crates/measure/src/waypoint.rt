ghost use Rattle.std.specs.Prelude.{◌≤◌};
ghost use Rattle.measure.specs.Close.{Close};

use outline::Point;

// A point on the way from one end of an edge to the other, and how many of the moves lead to it.
#[derive(Clone, Copy)]
pub(crate) struct Waypoint {
    pub(crate) from: Point,
    pub(crate) to: Point,
    pub(crate) at: Point,
    pub(crate) moves: u32,
    pub(crate) made: u32,
    ghost far: { Close from to },
    ghost near: { Close from at },
    ghost some: { 1 ≤ moves },
    ghost few: { moves ≤ 255 },
    ghost fewer: { made ≤ 255 },
}
