ghost use Rattle.std.specs.Prelude.{ℕ, suc, ◌<◌, length, Decides, slice_index};
ghost use Rattle.outline.specs.Plain.{plain};
ghost use Rattle.outline.specs.Polygon.{Polygon};

use super::outline::Outline;

// Whether each number is below the next.
fn rises(list: &[u16]) -> bool
    ensures { Decides result ((k : ℕ) → suc k < length list.now → slice_index list.now k < slice_index list.now (suc k)) }
{
    list.is_sorted_by(|vertex, next| vertex < next)
}

impl Outline {
    // Whether a list of point numbers is a polygon of the outline: it rises from 0 to the last point's number.
    pub fn is_polygon(&self, list: &[u16]) -> bool
        ensures { Decides result (Polygon (length (plain self.now).points) list.now) }
    {
        let ends = |last: &u16| *last as usize + 1 == self.len();
        list.first() == Some(&0) && list.last().is_some_and(ends) && rises(list)
    }
}
