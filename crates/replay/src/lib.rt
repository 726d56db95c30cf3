//! Any list of calls on one outline: opening, extending, retracting and the searches, in any order.
#![tactic(auto)]

pub use answer::Answer;
pub use call::Call;
pub use entry::{Entry, first_places};
pub use make::make_call;
pub use run::replay;

mod answer;
mod call;
mod entry;
mod make;
mod run;
#[cfg(test)]
mod tests;
