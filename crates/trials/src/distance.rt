// How far a point strays, worked out in other ways than the library's.
use super::ratio::{Ratio, ZERO};
use measure::Chosen;
use outline::Point;

#[derive(Clone, Copy)]
pub struct Spot {
    pub x: i64,
    pub y: i64,
}

impl From<Point> for Spot {
    fn from(point: Point) -> Spot {
        Spot {
            x: point.col as i64,
            y: point.row as i64,
        }
    }
}

impl Spot {
    pub(crate) fn minus(self, other: Spot) -> Spot {
        Spot {
            x: self.x.wrapping_sub(other.x),
            y: self.y.wrapping_sub(other.y),
        }
    }

    fn times(self, n: i64) -> Spot {
        Spot {
            x: self.x.wrapping_mul(n),
            y: self.y.wrapping_mul(n),
        }
    }

    fn dot(self, other: Spot) -> i64 {
        self.x
            .wrapping_mul(other.x)
            .wrapping_add(self.y.wrapping_mul(other.y))
    }
}

// By the squares and the product of the two ways from u: |v|²|p|² - (v p)² over |v|².
fn from_line(u: Spot, v: Spot, p: Spot) -> Ratio {
    let (v, p) = (v.minus(u), p.minus(u));
    let length = v.dot(v);
    if length == 0 {
        return Ratio {
            top: p.dot(p),
            bottom: 1,
        };
    }
    let along = v.dot(p);
    Ratio {
        top: length
            .wrapping_mul(p.dot(p))
            .wrapping_sub(along.wrapping_mul(along)),
        bottom: length,
    }
}

// By the n-fold point and the n-fold place: |n p - (n - m) u - m v|² over n².
fn from_pace(n: i64, m: i64, u: Spot, v: Spot, p: Spot) -> Ratio {
    let lag = p
        .times(n)
        .minus(u.times(n.wrapping_sub(m)))
        .minus(v.times(m));
    Ratio {
        top: lag.dot(lag),
        bottom: n.wrapping_mul(n),
    }
}

// The widest that the points between two others stray from the edge that joins these.
pub(crate) fn widest(measure: Chosen, u: Spot, v: Spot, between: &[Point]) -> Ratio {
    let n = between.len() as i64 + 1;
    let mut widest = ZERO;
    for (m, p) in (1i64..).zip(between) {
        let p = Spot::from(*p);
        widest = widest.wider(match measure {
            Chosen::Line => from_line(u, v, p),
            Chosen::Pace => from_pace(n, m, u, v, p),
        });
    }
    widest
}
