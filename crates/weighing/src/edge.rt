ghost use Rattle.std.specs.Prelude.{◌≡◌};
ghost use Rattle.outline.specs.Plain.{plain};
ghost use Rattle.weighing.specs.Edges.{edge_price};

use coding::Coder;
use outline::Outline;

// The price of edge i, j, or none where it has no code.
pub fn edge_price<C: Coder>(coder: &C, outline: &Outline, i: usize, j: usize) -> Option<u8>
    ensures { result ≡ edge_price (C.Coder.table coder.now) (plain outline.now).points i j }
{
    let points = outline.points();
    if i >= j || j >= points.len() {
        return None;
    }
    let (dx, dy) = points[i].offset(points[j]);
    coder.price(dx as i16, dy as i16)
}
