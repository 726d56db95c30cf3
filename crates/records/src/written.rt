// What was written: the record's bytes, its head included, and the bits of its codes, without the padding.
#[derive(Clone, Copy, PartialEq, Eq, Debug)]
#[repr(C)]
pub struct Written {
    pub bytes: usize,
    pub bits: usize,
}
