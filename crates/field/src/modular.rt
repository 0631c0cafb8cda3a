// Arithmetic modulo p, total for every p: a modulus of 0 is read as 1. Arguments need not be reduced; results are.
ghost use Rattle.std.specs.Prelude.{◌≡◌, ◌<◌};
ghost use Rattle.algebra.specs.Mod.{residue, add_mod, sub_mod, neg_mod, mul_mod, half_mod, inverse_mod};

// In two steps, so that the compiler does not make one hardware division of this and the known modulus.
fn other(p: u32, x: u64) -> u32
    requires { 0 < p }
    ensures { result ≡ residue p x }
{
    let m = p as u64;
    let half = x / 2 % m;
    ((half * 2 + x % 2) % m) as u32
}

pub fn reduce(p: u32, x: u64) -> u32
    ensures { result ≡ residue p x }
{
    match p {
        2147483647 => (x % 2147483647) as u32,
        0 => 0,
        _ => other(p, x),
    }
}

pub fn add(p: u32, a: u32, b: u32) -> u32
    ensures { result ≡ add_mod p a b }
{
    reduce(p, (a as u64) + (b as u64))
}

pub fn neg(p: u32, a: u32) -> u32
    ensures { result ≡ neg_mod p a }
{
    let r = reduce(p, a as u64);
    if r == 0 {
        return 0;
    }
    p - r
}

pub fn sub(p: u32, a: u32, b: u32) -> u32
    ensures { result ≡ sub_mod p a b }
{
    add(p, a, neg(p, b))
}

pub fn mul(p: u32, a: u32, b: u32) -> u32
    ensures { result ≡ mul_mod p a b }
{
    reduce(p, (a as u64) * (b as u64))
}

// a + b c, by one product and one reduction.
pub fn add_mul(p: u32, a: u32, b: u32, c: u32) -> u32
    ensures { result ≡ add_mod p a (mul_mod p b c) }
{
    reduce(p, (a as u64) + (b as u64) * (c as u64))
}

pub fn half(p: u32, a: u32) -> u32
    ensures { result ≡ half_mod p a }
{
    mul(p, a, (((p as u64) + 1) / 2) as u32)
}

// Each turn replaces a by p % a, which is -(p / a) a, and gathers the factor.
pub fn invert(p: u32, x: u32) -> u32
    ensures { result ≡ inverse_mod p x }
{
    let mut a: u32 = reduce(p, x as u64);
    let mut t: u32 = 1;
    while a > 1 {
        t = mul(p, t, neg(p, p / a));
        a = p % a;
    }
    mul(p, t, a)
}
