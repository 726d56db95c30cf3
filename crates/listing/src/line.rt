use coding::Kind;

// The numbers that a line tells of a polygon.
#[derive(Clone, Copy)]
pub struct Numbers {
    pub kind: u16,
    pub bits: u16,
    pub vertices: usize,
    pub top: u64,
    pub bottom: u32,
}

// The line of a kind: its polygon's numbers, or the kind that is refused by 26.
pub type Line = Result<Numbers, Kind>;
