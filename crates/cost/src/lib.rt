//! What a path may cost: values that take in the weights of edges, and an order of them.
#![tactic(auto)]

ghost use Rattle.std.specs.Prelude.{◌≡◌};
ghost use Rattle.cost.specs.Cost.{CostOf, Laws, StrictLaws};

pub mod bits;
pub mod price;
pub mod two_part;

pub trait Cost: Copy {
    type Weight: Copy;

    ghost cost: { CostOf Self Self.Weight };

    fn start() -> Self
        ensures { result ≡ cost.start };

    fn join(self, weight: Self::Weight) -> Self
        ensures { result ≡ cost.join self weight };

    fn above(self, other: Self) -> bool
        ensures { result ≡ cost.above self other };

    ghost laws: { Laws cost };
}

// A cost in which one value below another stays below it, whatever weight joins both.
pub trait StrictCost: Copy {
    type Weight: Copy;

    ghost strict: { CostOf Self Self.Weight };

    fn start() -> Self
        ensures { result ≡ strict.start };

    fn join(self, weight: Self::Weight) -> Self
        ensures { result ≡ strict.join self weight };

    fn above(self, other: Self) -> bool
        ensures { result ≡ strict.above self other };

    ghost laws: { StrictLaws strict };
}
