// Signed numbers. Each signed operation of the machine is a function of its own, whose contract is over ℤ.
ghost use Rattle.std.specs.Prelude.{◌≡◌, true, ◌≤◌, ◌^◌, ℤ, pos, nat_abs, ◌+ℤ◌, ◌*ℤ◌};
ghost use Rattle.std.specs.Int.Signed.{lt_z};
ghost use Rattle.field.specs.Integer.{image};

pub fn widen(x: i32) -> i64
    ensures { result ≡ x }
{
    x as i64
}

// A reading times its weight.
pub fn product(reading: i32, weight: u16) -> i64
    ensures { result ≡ reading *ℤ pos weight }
{
    widen(reading) * (weight as i64)
}

pub fn is_negative(x: i64) -> bool
    ensures { result ≡ lt_z x (pos 0) }
{
    x < 0
}

// The absolute value, 2^63 for the least number.
pub fn magnitude(x: i64) -> u64
    ensures { result ≡ nat_abs x }
{
    if x < 0 {
        ((-1 - x) as u64) + 1
    } else {
        x as u64
    }
}

// The number modulo p, by its sign: p + x for a negative x.
pub fn image(p: u32, x: i64) -> u32
    ensures { result ≡ image p x }
{
    let m = super::modular::reduce(p, magnitude(x));
    if is_negative(x) {
        super::modular::neg(p, m)
    } else {
        m
    }
}
