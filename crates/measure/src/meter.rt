ghost use Rattle.std.specs.Prelude.{◌≡◌};
ghost use Rattle.measure.specs.Measures.{Strays, Answers, NoneElse};
ghost use Rattle.outline.specs.Plain.{plain};

use super::fraction::Fraction;
use outline::Outline;

// A measure says how far a point between the ends of an edge strays from that edge.
pub trait Measure {
    ghost strays: { Self → Strays };

    // How far point k strays from edge i, j.
    fn strays(&self, outline: &Outline, i: usize, k: usize, j: usize) -> Option<Fraction>
        ensures { result ≡ strays self.now (plain outline.now).points i k j };

    ghost answers: { (s : Self) → Answers (strays s) };

    ghost none: { (s : Self) → NoneElse (strays s) };
}
