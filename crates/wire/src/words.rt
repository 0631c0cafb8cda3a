// Numbers of four bytes: at any place of any bytes, and by their sign.
ghost use Rattle.std.specs.Prelude.{◌≡◌};
ghost use Rattle.wire.specs.Number.{signed, word_at};

// Zero where the four bytes are not there.
pub fn word_at(s: &[u8], at: usize) -> u32
    ensures { result ≡ word_at s.now at }
{
    if s.len() < 4 {
        return 0;
    }
    if s.len() - 4 < at {
        return 0;
    }
    super::number::get32(s, at)
}

// A number of 32 bits as two's complement.
pub fn signed_word(v: u32) -> i32
    ensures { result ≡ signed 4 v }
{
    super::number::signed32(v)
}
