//! Vertex coders: the code of a displacement, its price, and reading it back.
#![tactic(auto)]

mod axis;
mod bit_row;
mod chain;
mod coder;
mod directions;
mod flat;
mod kind;
mod kinds;
mod pair;
mod rows;
mod run;

pub use axis::Axis;
pub use bit_row::BitRow;
pub use chain::Chain;
pub use coder::Coder;
pub use directions::direction;
pub use flat::Flat;
pub use kind::Kind;
pub use pair::Pair;
pub use run::Run;
