//! From a chain record to the outline that it traces.
#![tactic(auto)]

mod read;
mod steps;

pub use read::read_outline;
pub use steps::trace;

#[cfg(test)]
mod tests;
