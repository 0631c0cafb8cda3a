// The product of challenges or twists over the ones of an index.
ghost use Rattle.std.specs.Prelude.{◌≡◌, min, ◌%◌, cond, eqb};
ghost use Rattle.algebra.specs.Mod.{mul_mod};
ghost use Rattle.refusal.specs.Limit.{max_rounds};
ghost use Rattle.vector.specs.Vector.{at, weight};
ghost use Rattle.vector.specs.Twist.{low_weights, weights_from, twists_of};

// Bit k of the index, the lowest first, with place k.
#[tactic(auto, unfolding(crate::specs::Vector::weight))]
fn weight_in(p: u32, cs: &[u32; 15], n: u32, index: u32) -> u32
    ensures { result ≡ weight p (at cs.now) (min n max_rounds) index }
{
    let mut product = field::modular::reduce(p, 1);
    let mut rest = index;
    for k in 0..u32::min(n, refusal::MAX_ROUNDS) {
        if rest % 2 == 1 {
            product = field::modular::mul(p, product, cs[k as usize]);
        }
        rest /= 2;
    }
    product
}

pub fn weight_of(p: u32, cs: [u32; 15], n: u32, index: u32) -> u32
    ensures { result ≡ weight p (at cs) (min n max_rounds) index }
{
    weight_in(p, &cs, n, index)
}

// The weights of the indices 0 to 15.
#[tactic(auto, unfolding(crate::specs::Slice::overwrite))]
pub fn low_weights(p: u32, cs: [u32; 15], n: u32) -> [u32; 16]
    ensures { result ≡ low_weights p cs n }
{
    let mut out = [0u32; 16];
    for i in 0..16 {
        out[i] = weight_in(p, &cs, n, i as u32);
    }
    out
}

// The weight of an index whose upper bits have the weight `high`: consecutive indices take one product each.
pub fn split_weight(p: u32, low: &[u32; 16], high: u32, index: u32) -> u32
    ensures { result ≡ mul_mod p high (at low.now (index % 16)) }
{
    let l = (index % 16) as usize;
    field::modular::mul(p, high, low[l])
}

// The product of the upper bits, kept from the index before unless they change here.
fn upper(p: u32, cs: &[u32; 15], n: u32, index: u32, before: u32) -> u32
    ensures { result ≡ cond (eqb (index % 16) 0) (weight p (at cs.now) (min n max_rounds) index) before }
{
    if index % 16 == 0 {
        return weight_in(p, cs, n, index);
    }
    before
}

// The weights of consecutive indices, one product each; nothing where they go past 32 bits.
#[tactic(auto, unfolding(crate::specs::Slice::overwrite, crate::specs::Twist::weights_from))]
pub fn weights(p: u32, cs: [u32; 15], n: u32, first: u32, out: &mut [u32])
    ensures { out.new ≡ weights_from p cs n first out.old }
{
    let m = out.len();
    if ((4294967295 - first) as usize) < m {
        return;
    }
    let low = low_weights(p, cs, n);
    let mut high = weight_in(p, &cs, n, first / 16 * 16);
    for i in 0..m {
        let index = first + (i as u32);
        high = upper(p, &cs, n, index, high);
        out[i] = split_weight(p, &low, high, index);
    }
}

// Place j, for j below n, by squaring; the rest zero.
#[tactic(auto, unfolding(crate::specs::Slice::overwrite))]
pub fn powers(p: u32, v: u32, n: u32) -> [u32; 15]
    ensures { result ≡ twists_of p v n }
{
    let mut out = [0u32; 15];
    let mut square = field::modular::reduce(p, v as u64);
    for j in 0..u32::min(n, refusal::MAX_ROUNDS) {
        out[j as usize] = square;
        square = field::modular::mul(p, square, square);
    }
    out
}
