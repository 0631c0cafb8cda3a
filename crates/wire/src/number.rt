// Little-endian numbers in slices of bytes.
ghost use Rattle.std.specs.Prelude.{◌≡◌, ◌+◌, ◌%◌, ◌<◌, ◌≤◌, length, nat_abs};
ghost use Rattle.std.proofs.lemmas.List.Edits.{sets};
ghost use Rattle.wire.specs.Number.{bits, bytes, num_at, signed};

// A byte as a number that holds any of the sums below.
fn wide(x: u8) -> u32
    ensures { (result ≡ x) × (result < 256) }
{
    x as u32
}

pub(crate) fn get16(s: &[u8], at: usize) -> u32
    requires { at + 2 ≤ length s.now }
    ensures { (result ≡ num_at 2 s.now at) × (result < 65536) }
{
    let low = wide(s[at]);
    let high = wide(s[at + 1]);
    low + 256 * high
}

pub(crate) fn get32(s: &[u8], at: usize) -> u32
    requires { at + 4 ≤ length s.now }
    ensures { result ≡ num_at 4 s.now at }
{
    wide(s[at]) + 256 * wide(s[at + 1]) + 65536 * wide(s[at + 2]) + 16777216 * wide(s[at + 3])
}

// The lowest byte of a number.
fn low(v: u32) -> u8
    ensures { result ≡ v % 256 }
{
    (v % 256) as u8
}

#[tactic(auto, unfolding(crate::specs::Number::bytes))]
pub(crate) fn put32(s: &mut [u8], at: usize, v: u32)
    requires { at + 4 ≤ length s.old }
    ensures { s.new ≡ sets s.old at (bytes 4 v) }
{
    s[at] = low(v);
    s[at + 1] = low(v / 256);
    s[at + 2] = low(v / 65536);
    s[at + 3] = low(v / 16777216);
}

// Two's complement: a cast would ask that the number is in the lower half.
// Apart from `signed32`: over the width as a parameter, half of its range would be a computed constant, which no argument may be.
#[tactic(auto, unfolding(crate::specs::Number::signed))]
pub(crate) fn signed16(v: u32) -> i32
    requires { v < 65536 }
    ensures { result ≡ signed 2 v }
{
    if v < 32768 {
        v as i32
    } else {
        -1 - ((65535 - v) as i32)
    }
}

#[tactic(auto, unfolding(crate::specs::Number::signed))]
pub(crate) fn signed32(v: u32) -> i32
    ensures { result ≡ signed 4 v }
{
    if v < 2147483648 {
        v as i32
    } else {
        -1 - ((4294967295 - v) as i32)
    }
}

// Two's complement back.
#[tactic(auto, unfolding(crate::specs::Number::bits))]
pub(crate) fn bits32(z: i64) -> u32
    requires { nat_abs z ≤ 2147483648 }
    ensures { result ≡ bits 4 z }
{
    if z < 0 {
        4294967295 - ((-1 - z) as u32)
    } else {
        z as u32
    }
}
