//! The outline of a warm patch: a frame, and points that each follow the one before by one of eight moves.
#![tactic(auto)]

mod call;
mod calls;
mod direction;
mod moves;
mod outline;
mod point;
mod points;
mod polygon;
mod refusal;
mod runs;
mod table;

pub use call::Call;
pub use calls::LONGEST_SIDE;
pub use direction::Direction;
pub use moves::MOVES;
pub use outline::Outline;
pub use point::Point;
pub use refusal::Refusal;

#[cfg(test)]
mod tests;
