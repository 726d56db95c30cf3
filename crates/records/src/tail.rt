ghost use Rattle.std.specs.Prelude.{◌^◌, ◌<◌};

// Where writing stands: the whole bytes so far, and the bits after them, too few for a byte.
#[derive(Clone, Copy)]
pub(crate) struct Tail {
    at: usize,
    bits: u64,
    len: u8,
    ghost few: { len < 8 },
    ghost spelled: { bits < 2 ^ len },
}

impl Tail {
    ghost use Rattle.std.specs.Prelude.{◌≡◌, ℕ, ◌+◌, ◌/◌, ◌≤◌, false, List, [], ◌++◌, length, replicate};
    ghost use Rattle.coding.specs.Bits.{bits_of, low_bits};
    ghost use Rattle.records.specs.Tails.{put_bits};

    // Nothing is put yet.
    pub(crate) fn new() -> Tail
        ensures front { result.at ≡ 0 }
        ensures none { (bytes : List ℕ) → put_bits bytes result ≡ [] }
    {
        Tail {
            at: 0,
            bits: 0,
            len: 0,
        }
    }

    // Puts a code after the bits so far.
    pub(crate) fn put(&mut self, body: &mut [u8], code: u32, width: u8)
        requires sized { width ≤ 32 }
        requires spelled { code < 2 ^ width }
        requires room { self.old.at + (self.old.len + width) / 8 ≤ length body.old }
        ensures within { self.new.at ≤ length body.old }
        ensures after { put_bits body.new self.new ≡ put_bits body.old self.old ++ low_bits width code }
    {
        let mut bits = (self.bits << width) + code as u64;
        let mut len = self.len + width;
        let at = self.at + (len / 8) as usize;
        for byte in body[self.at..at].iter_mut() {
            len -= 8;
            *byte = (bits >> len) as u8;
            bits %= 1 << len;
        }
        *self = Tail { at, bits, len };
    }

    // Fills the last byte up with zeros.
    pub(crate) fn finish(self, body: &mut [u8])
        requires { self.at + (self.len + 7) / 8 ≡ length body.old }
        ensures { (pad : ℕ) × (pad < 8) × (bits_of body.new ≡ put_bits body.old self ++ replicate pad false) }
    {
        if self.len > 0 {
            body[self.at] = (self.bits << (8 - self.len)) as u8;
        }
    }
}
