ghost use Rattle.std.specs.Prelude.{◌+◌, ◌*◌, ◌^◌, ◌<◌, ◌≤◌, length};

// A view of bytes from a bit on, high bits first, with a length of its own.
#[derive(Clone, Copy)]
pub struct BitRow<'a> {
    pub(crate) bytes: &'a [u8],
    pub(crate) from: usize,
    pub(crate) len: usize,
    ghost inside: { from + len ≤ 8 * length bytes.now },
    ghost fits: { from + len < 2 ^ 64 },
}
