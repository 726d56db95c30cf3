//! How far the points of an outline stray from the edges of a polygon.
#![tactic(auto)]

mod chosen;
mod deviations;
mod fraction;
mod fractions;
mod line;
mod meter;
mod offset;
mod pace;
#[cfg(test)]
mod tests;
mod tolerance;
mod waypoint;
mod waypoints;

pub use chosen::{Chosen, UnknownMeasure};
pub use deviations::{deviation, deviation_is_widest, polygon_deviation, polygon_is_widest};
pub use fraction::Fraction;
pub use line::Line;
pub use meter::Measure;
pub use pace::Pace;
pub use tolerance::{deviation_within, is_within};
