ghost use Rattle.std.specs.Prelude.{◌≡◌, ◌^◌, ◌≤◌, ◌-ℤ◌, ◌*ℤ◌, unsigned_abs};
ghost use Rattle.measure.specs.Distances.{cols, rows, square as square_of, squared_length};

use outline::Point;

pub(crate) fn square(x: i32) -> u64
    ensures value { result ≡ square_of x }
    ensures bound { result ≤ 2 ^ 62 }
{
    let size = x.unsigned_abs() as u64;
    size * size
}

// The squared length of a step by x columns and y rows.
pub(crate) fn square_length(x: i32, y: i32) -> u64
    ensures { result ≡ squared_length x y }
{
    square(x) + square(y)
}

// The squared distance of two points.
pub(crate) fn square_distance(u: Point, v: Point) -> u64
    ensures { result ≡ squared_length (cols u v) (rows u v) }
{
    let (right, down) = u.offset(v);
    square_length(right, down)
}

// a × b - c × d, where all four are differences within an outline.
pub(crate) fn products_apart(a: i32, b: i32, c: i32, d: i32) -> i32
    requires { (unsigned_abs a ≤ 255) × ((unsigned_abs b ≤ 255) × ((unsigned_abs c ≤ 255) × (unsigned_abs d ≤ 255))) }
    ensures { result ≡ a *ℤ b -ℤ c *ℤ d }
{
    a * b - c * d
}
