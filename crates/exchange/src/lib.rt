//! From a chain record to the record of its best polygon, and from a record to its text.
#![tactic(auto)]

mod decoded;
mod decoding;
mod encoding;
mod failure;
mod order;
mod shown;
mod telling;
mod words;

pub use closest::Goal;
pub use decoded::Decoded;
pub use decoding::decode;
pub use encoding::{MOST_BYTES, encode};
pub use failure::Failure;
pub use order::Order;
pub use telling::report;
