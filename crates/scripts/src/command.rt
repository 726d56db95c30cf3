use super::places::Places;
use measure::Chosen;

// A line of a script: a call on the outline, or what later calls are to use.
#[derive(Clone, Copy)]
pub enum Command {
    Kind {
        number: u16,
    },
    Measure {
        chosen: Chosen,
    },
    Rows {
        places: Places,
    },
    List {
        places: Places,
    },
    Open {
        width: u16,
        height: u16,
        col: u16,
        row: u16,
    },
    Extend {
        direction: u8,
    },
    Retract,
    LeastPriced {
        top: u64,
        bottom: u64,
    },
    LeastStraying,
    Cheapest {
        top: u64,
        bottom: u64,
    },
    Finest,
    Closest {
        budget: u16,
    },
}
