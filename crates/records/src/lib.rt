//! Records: a polygon's vertices as bytes.
#![tactic(auto)]

mod body;
mod corners;
mod edges;
mod fault;
mod head;
mod laws;
mod numbers;
mod reader;
mod reading;
mod tail;
mod write;
mod written;

pub use fault::{BitFault, CoderFault, Fault, HeadFault};
pub use laws::{kinds_are_unique, records_are_unique};
pub use reader::{read, read_chain, read_kind};
pub use reading::Reading;
pub use write::{record, write_kind};
pub use written::Written;
