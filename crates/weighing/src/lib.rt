//! What the edges of an outline weigh.
#![tactic(auto)]

mod deviation;
mod edge;
mod priced;
mod straying;
#[cfg(test)]
mod tests;
mod weigher;

pub use deviation::Deviation;
pub use edge::edge_price;
pub use priced::Priced;
pub use straying::Straying;
pub use weigher::Weigher;
