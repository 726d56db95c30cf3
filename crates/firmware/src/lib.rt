//! What the logger's firmware, which is written in C, calls.
#![tactic(auto)]

mod encoder;
mod reader;
mod told;

pub use encoder::{polygon_cheapest, polygon_closest};
pub use reader::polygon_read;
