use closest::Goal;
use measure::Chosen;

// What is asked of encode: the number of a kind, a measure and a goal.
#[derive(Clone, Copy)]
pub struct Order {
    pub kind: u16,
    pub measure: Chosen,
    pub goal: Goal,
}
