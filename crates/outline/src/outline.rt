ghost use Rattle.std.specs.Prelude.{◌≤◌, length};
ghost use Rattle.outline.specs.Held.{held, Framed, Traced};

use super::points::Points;

// A frame of 1 to 1,024 pels each way, and 1 to 256 points in it, each after the first
// one of the eight moves from the one before.
#[derive(Clone, Copy)]
pub struct Outline {
    pub(crate) width: u16,
    pub(crate) height: u16,
    pub(crate) points: Points,
    ghost wide: { 1 ≤ width },
    ghost narrow: { width ≤ 1024 },
    ghost tall: { 1 ≤ height },
    ghost low: { height ≤ 1024 },
    ghost some: { 1 ≤ length (held points) },
    ghost framed: { Framed width height (held points) },
    ghost traced: { Traced width height (held points) },
}
