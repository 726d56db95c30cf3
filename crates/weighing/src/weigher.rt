ghost use Rattle.std.specs.Prelude.{◌≡◌, ℕ, List, Option};
ghost use Rattle.outline.specs.declared.point.Point.{Point as PointOf};
ghost use Rattle.outline.specs.Plain.{plain};
ghost use Rattle.weighing.specs.Weights.{EdgesOnly};

use cost::Cost;
use outline::Outline;

// Gives an edge of an outline a weight of its own cost, or none: a fixed function of the points and the edge's two numbers.
pub trait Weigher {
    type Weight: Copy;

    type Cost: Cost<Weight = Self::Weight>;

    ghost weight: { Self → List PointOf → ℕ → ℕ → Option Self.Weight };

    // Numbers other than i < j below the number of points get none.
    fn weight(&self, outline: &Outline, i: usize, j: usize) -> Option<Self::Weight>
        ensures value { result ≡ weight self.now (plain outline.now).points i j }
        ensures edges { EdgesOnly (weight self.now) };
}
