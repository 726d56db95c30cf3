//! Scripts of calls on one outline: what a line says, and what a logger answers to it.
#![tactic(auto)]

mod command;
mod numbers;
mod parse;
mod places;
mod replies;
mod reply;
mod session;
mod shown;
mod step;
mod word;

pub use command::Command;
pub use parse::parse_line;
pub use places::Places;
pub use reply::{Reply, Vertices};
pub use session::Session;
