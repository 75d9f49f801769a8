// Text written into a lent one: bytes, and numbers in hexadecimal and in decimal.
#![tactic(auto)]

ghost use Rattle.std.specs.Prelude.{◌≡◌, ◌+◌, ◌^◌, ◌<◌, ◌≤◌, length};
ghost use Rattle.io.specs.Digits.{last_digits};
ghost use Rattle.subdivision.specs.Lists.{over};
ghost use Rattle.frames.specs.Placing.{decimal};

// A lent text, and the place in it where the next byte goes.
#[derive(Drop)]
pub struct Text<'a> {
    pub bytes: &'a mut [u8],
    pub at: usize,
}

impl Text<'_> {
    // Writes bytes over the text from its place on, and goes to where they end.
    pub fn put_bytes(&mut self, bytes: &[u8])
        requires { self.old.at + length bytes.now ≤ length self.old.bytes.now }
        ensures value { self.new.at ≡ self.old.at + length bytes.now }
        ensures text_after { self.new.bytes.now ≡ over bytes.now self.old.bytes.now self.old.at }
        ensures same_text { self.new.bytes.ghost_name ≡ self.old.bytes.ghost_name }
    {
        let end = self.at + bytes.len();
        self.bytes[self.at..end].copy_from_slice(bytes);
        self.at = end;
    }

    // Writes a number in hexadecimal, in so many digits, and goes to where it ends.
    pub fn put_digits(&mut self, n: u32, width: usize)
        requires width_nonzero { ((0 < width) × (width ≤ 16)) × (n < 16 ^ width) }
        requires width_in_bounds { self.old.at + width ≤ length self.old.bytes.now }
        ensures value { self.new.at ≡ self.old.at + width }
        ensures text_after { self.new.bytes.now ≡ over (last_digits 16 width n) self.old.bytes.now self.old.at }
        ensures same_text { self.new.bytes.ghost_name ≡ self.old.bytes.ghost_name }
    {
        // A fixed buffer: no heap, memory of a known size.
        let mut space = [0u8; 16];
        let count = io::hex(n as u64, width, &mut space);
        self.put_bytes(&space[..count]);
    }

    // Writes a number in decimal, and goes to where it ends.
    pub fn put_decimal(&mut self, n: u64)
        requires { self.old.at + length (decimal n) ≤ length self.old.bytes.now }
        ensures value { self.new.at ≡ self.old.at + length (decimal n) }
        ensures text_after { self.new.bytes.now ≡ over (decimal n) self.old.bytes.now self.old.at }
        ensures same_text { self.new.bytes.ghost_name ≡ self.old.bytes.ghost_name }
    {
        // A fixed buffer: no heap, memory of a known size.
        let mut space = [0u8; 20];
        let count = io::decimal(n, &mut space);
        self.put_bytes(&space[..count]);
    }
}
