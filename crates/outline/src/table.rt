ghost use Rattle.std.specs.Prelude.{◌≡◌, ◌-◌, ◌<◌, ◌≤◌, [], ◌∷◌, ◌++◌, length, take, slice_index_or};
ghost use Rattle.outline.specs.Held.{held, origin};
ghost use Rattle.std.specs.List.{slice_get};

use super::point::Point;
use super::points::{Points, ROOM};

impl Points {
    pub(crate) fn new(start: Point) -> Points
        ensures { held result ≡ start ∷ [] }
    {
        Points {
            at: [start; ROOM],
            len: 1,
        }
    }

    pub(crate) fn push(&mut self, p: Point)
        requires { length (held self.old) < 256 }
        ensures { held self.new ≡ held self.old ++ p ∷ [] }
    {
        let n = self.len;
        self.at[n] = p;
        self.len = n + 1;
    }

    pub(crate) fn pop(&mut self)
        requires { 0 < length (held self.old) }
        ensures { held self.new ≡ take (length (held self.old) - 1) (held self.old) }
    {
        self.len -= 1;
    }

    pub(crate) fn len(&self) -> usize
        ensures { result ≡ length (held self.now) }
    {
        self.len
    }

    pub(crate) fn get(&self, k: usize) -> Option<Point>
        ensures { result ≡ slice_get (held self.now) k }
    {
        self.as_slice().get(k).copied()
    }

    pub(crate) fn last(&self) -> Point
        requires { 0 < length (held self.now) }
        ensures { result ≡ slice_index_or (held self.now) (length (held self.now) - 1) origin }
    {
        self.at[self.len - 1]
    }

    pub(crate) fn as_slice(&self) -> &[Point]
        ensures { result.now ≡ held self.now }
    {
        &self.at[0..self.len]
    }
}
