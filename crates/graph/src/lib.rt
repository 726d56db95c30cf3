//! The least path to each of a number of places, and the list of its places.
#![tactic(auto)]

ghost use Rattle.std.specs.Prelude.{◌≡◌, ℕ, ◌^◌, ◌≤◌, Option};
ghost use Rattle.graph.specs.Rows.{Shallow, unreached_row};

pub use back::read_back;
use cost::Cost;
pub use search::{TooFewRows, fill};

mod back;
mod search;
#[cfg(test)]
mod tests;
pub mod theorems;

// What a search says of a place.
#[derive(Clone, Copy)]
pub struct Row<C> {
    pub reached: bool,
    pub cost: C,
    pub predecessor: u16,
}

impl<C: Cost> Row<C> {
    // The row of a place that no path ends at: what rows may hold before a search.
    pub fn unreached() -> Row<C>
        ensures { result ≡ unreached_row C.Cost.cost }
    {
        Row {
            reached: false,
            cost: C::start(),
            predecessor: 0,
        }
    }
}

// Numbered places, and the weights of the edges between them.
pub trait Graph {
    type Weight: Copy;

    type Cost: Cost<Weight = Self::Weight>;

    ghost places: { Self → ℕ };

    ghost edge: { Self → ℕ → ℕ → Option Self.Weight };

    // The most edges that lead to a place.
    ghost depth: { Self → ℕ → ℕ };

    // What holds of every graph is promised with the number, where the fields of a graph are known to fit their types.
    fn places(&self) -> usize
        ensures number { result ≡ places self.now }
        ensures few { places self.now ≤ 2 ^ 16 }
        ensures shallow { Shallow (places self.now) (edge self.now) (depth self.now) };

    fn edge(&self, from: usize, to: usize) -> Option<Self::Weight>
        ensures { result ≡ edge self.now from to };
}
