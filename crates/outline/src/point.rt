// A point of a frame: a column and a row, counted from 0, rows downward.
#[derive(Clone, Copy, PartialEq, Eq, Debug)]
#[repr(C)]
pub struct Point {
    pub col: u16,
    pub row: u16,
}
