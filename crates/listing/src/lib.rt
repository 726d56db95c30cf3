//! The listing of a chain record: the cheapest polygon of its outline for each kind of code.
#![tactic(auto)]

mod line;
mod lines;
mod shown;

pub use line::{Line, Numbers};
pub use lines::list_record;
pub use shown::{header, kind_refused, record_refused};

#[cfg(test)]
mod tests;
