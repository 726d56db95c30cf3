ghost use Rattle.std.specs.Prelude.{◌≡◌, Some};
ghost use Rattle.measure.specs.Close.{Close};
ghost use Rattle.measure.specs.Distances.{cross, line as line_of, line_from, square as square_of};
ghost use Rattle.measure.specs.Lawful.{line_answers};
ghost use Rattle.std.proofs.Common.{rules};

use super::fraction::Fraction;
use super::meter::Measure;
use super::offset::{products_apart, square, square_distance};
use outline::{Outline, Point};

// Strays by the distance to the line through the ends of the edge.
#[derive(Clone, Copy)]
pub struct Line;

// The square of c = (v.col - u.col) × (p.row - u.row) - (v.row - u.row) × (p.col - u.col).
fn square_cross(u: Point, v: Point, p: Point) -> u64
    requires { (Close u v) × (Close u p) }
    ensures { result ≡ square_of (cross u v p) }
{
    let (v_right, v_down) = u.offset(v);
    let (p_right, p_down) = u.offset(p);
    square(products_apart(v_right, p_down, v_down, p_right))
}

// How far p strays from the line through u and v.
fn line_from(u: Point, v: Point, p: Point) -> Fraction
    requires { (Close u v) × (Close u p) }
    ensures { Some result ≡ line_from u v p }
{
    if u == v {
        return Fraction::of(square_distance(u, p), 1);
    }
    Fraction::of(square_cross(u, v, p), square_distance(u, v) as u32)
}

impl Measure for Line {
    ghost strays = { λ s. line_of };

    ghost answers = { λ s. line_answers };

    ghost none = { Prim.search rules };

    fn strays(&self, outline: &Outline, i: usize, k: usize, j: usize) -> Option<Fraction> {
        let points = outline.points();
        if i >= k || k >= j || j >= points.len() {
            return None;
        }
        Some(line_from(points[i], points[j], points[k]))
    }
}
