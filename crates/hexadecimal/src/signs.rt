ghost use Rattle.std.specs.Prelude.{◌≡◌};
ghost use Rattle.frames.specs.Digits.{signed_of, word_of};

// The signed number that four bytes make in two's complement.
pub fn signed_of(w: u32) -> i32
    ensures { result ≡ signed_of w }
{
    w.cast_signed()
}

// The four bytes of a signed number in two's complement.
pub fn word_of(v: i32) -> u32
    ensures { result ≡ word_of v }
{
    v.cast_unsigned()
}
