use outline::Point;

// What a record says: its kind, and its vertices at the front of a table.
#[derive(Clone, Copy)]
pub struct Decoded {
    pub kind: u16,
    pub vertices: usize,
    pub points: [Point; 256],
}
