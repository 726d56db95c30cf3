ghost use Rattle.std.specs.Prelude.{◌≡◌, Some};
ghost use Rattle.measure.specs.Distances.{pace as pace_of, pace_from, squared_lag};
ghost use Rattle.measure.specs.Lawful.{pace_answers};
ghost use Rattle.std.proofs.Common.{rules};

use super::fraction::Fraction;
use super::meter::Measure;
use super::offset::{products_apart, square_length};
use super::waypoint::Waypoint;
use outline::Outline;

// Strays by the distance to the place that an even pace along the edge has reached by then.
#[derive(Clone, Copy)]
pub struct Pace;

impl Waypoint {
    // The square of n(p - u) - m(v - u), for ends u and v, n moves from one to the other, and m of them to a point p.
    fn square_lag(self) -> u64
        ensures { result ≡ squared_lag self.moves self.made self.from self.to self.at }
    {
        let (n, m) = (self.moves as i32, self.made as i32);
        let (v_right, v_down) = self.from.offset(self.to);
        let (p_right, p_down) = self.from.offset(self.at);
        square_length(
            products_apart(n, p_right, m, v_right),
            products_apart(n, p_down, m, v_down),
        )
    }

    // How far the point strays from the place that as many moves of an even pace lead to.
    fn off_pace(self) -> Fraction
        ensures { Some result ≡ pace_from self.moves self.made self.from self.to self.at }
    {
        Fraction::of(self.square_lag(), self.moves * self.moves)
    }
}

impl Measure for Pace {
    ghost strays = { λ s. pace_of };

    ghost answers = { λ s. pace_answers };

    ghost none = { Prim.search rules };

    fn strays(&self, outline: &Outline, i: usize, k: usize, j: usize) -> Option<Fraction> {
        Some(Waypoint::new(outline, i, k, j)?.off_pace())
    }
}
