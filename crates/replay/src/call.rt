// One call on an outline, with its arguments.
#[derive(Clone, Copy)]
pub enum Call {
    Open {
        width: u16,
        height: u16,
        col: u16,
        row: u16,
    },
    Extend {
        direction: u8,
    },
    Retract,
    Least,
    Cheapest {
        top: u64,
        bottom: u64,
    },
    Finest,
    Closest {
        budget: u16,
    },
}
