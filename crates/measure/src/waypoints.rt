ghost use Rattle.measure.specs.Waypoints.{OnTheWay};
ghost use Rattle.outline.specs.Plain.{plain};

use super::waypoint::Waypoint;
use outline::Outline;

impl Waypoint {
    // Point k on the way along edge i, j, or none where it is not between the ends.
    pub(crate) fn new(outline: &Outline, i: usize, k: usize, j: usize) -> Option<Waypoint>
        ensures { OnTheWay (plain outline.now).points i k j result }
    {
        let points = outline.points();
        if i >= k || k >= j || j >= points.len() {
            return None;
        }
        Some(Waypoint {
            from: points[i],
            to: points[j],
            at: points[k],
            moves: (j - i) as u32,
            made: (k - i) as u32,
        })
    }
}
