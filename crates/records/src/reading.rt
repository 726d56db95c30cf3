// What a record was read as: its kind, the bytes that it takes, and the number of its vertices.
#[derive(Clone, Copy, PartialEq, Eq, Debug)]
#[repr(C)]
pub struct Reading {
    pub kind: u16,
    pub bytes: usize,
    pub vertices: usize,
}
