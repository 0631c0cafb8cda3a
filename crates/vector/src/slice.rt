// The first places of a slice as a vector of numbers modulo p.
ghost use Rattle.std.specs.Prelude.{◌≡◌, ◌≤◌, ◌&&◌, length, set};
ghost use Rattle.vector.specs.Slice.{fold_slice, message_in, message_slice, evaluate_slice, all_reduced, all_nonzero, fifteen};

use super::Message;

// In place: the first `half` places become the fold of the first 2 `half`.
#[tactic(auto, using(crate::proofs::Overwrite::fold_step), unfolding(crate::specs::Slice::fold_slice, crate::specs::Slice::overwrite))]
pub fn fold(p: u32, c: u32, v: &mut [u32], half: usize)
    ensures { v.new ≡ fold_slice p c half v.old }
{
    if v.len() / 2 < half {
        return;
    }
    for i in 0..half {
        let even = v[2 * i];
        let odd = v[2 * i + 1];
        v[i] = field::modular::add_mul(p, even, c, odd);
    }
}

// The two halves of the cross sum are summed apart, each in a chain of its own.
#[tactic(auto, using(crate::proofs::Accumulate::add_even, crate::proofs::Accumulate::add_forth, crate::proofs::Accumulate::add_back, crate::proofs::Accumulate::add_cross, crate::proofs::Accumulate::add_odd), unfolding(crate::specs::Slice::message_slice))]
pub fn message(p: u32, f: &[u32], g: &[u32], half: usize) -> Message
    ensures { message_in result ≡ message_slice p half f.now g.now }
{
    let mut even: u32 = 0;
    let mut cross: u32 = 0;
    let mut back: u32 = 0;
    let mut odd: u32 = 0;
    if f.len() / 2 < half {
        return Message { even, cross, odd };
    }
    if g.len() / 2 < half {
        return Message { even, cross, odd };
    }
    for k in 0..half {
        let f0 = f[2 * k];
        let f1 = f[2 * k + 1];
        let g0 = g[2 * k];
        let g1 = g[2 * k + 1];
        even = field::modular::add_mul(p, even, f0, g0);
        cross = field::modular::add_mul(p, cross, f0, g1);
        back = field::modular::add_mul(p, back, f1, g0);
        odd = field::modular::add_mul(p, odd, f1, g1);
    }
    Message {
        even,
        cross: field::modular::add(p, cross, back),
        odd,
    }
}

// By Horner's rule, from the last item.
#[tactic(auto, using(crate::proofs::Evaluation::all_left, crate::proofs::Evaluation::none_left, crate::proofs::Evaluation::one_less), unfolding(crate::specs::Slice::evaluate_slice))]
pub fn evaluate(p: u32, v: &[u32], n: usize, x: u32) -> u32
    ensures { result ≡ evaluate_slice p n v.now x }
{
    if v.len() < n {
        return 0;
    }
    let mut value: u32 = 0;
    for i in (0..n).rev() {
        value = field::modular::add_mul(p, v[i], value, x);
    }
    value
}

// A test that never leaves its loop.
pub fn still(ok: bool, good: bool) -> bool
    ensures { result ≡ (ok && good) }
{
    if good {
        return ok;
    }
    false
}

#[tactic(auto, unfolding(crate::specs::Slice::every))]
fn first_reduced(p: u32, v: &[u32], m: usize) -> bool
    requires { m ≤ length v.now }
    ensures { result ≡ all_reduced p m v.now }
{
    let mut ok = true;
    for x in &v[..m] {
        ok = still(ok, *x < p);
    }
    ok
}

#[tactic(auto, using(crate::proofs::Every::reduced_short))]
pub fn all_reduced(p: u32, v: &[u32], m: usize) -> bool
    ensures { result ≡ all_reduced p m v.now }
{
    let n = v.len();
    if n < m {
        return still(first_reduced(p, v, n), 0 < p);
    }
    first_reduced(p, v, m)
}

#[tactic(auto, using(crate::proofs::Every::nonzero_short), unfolding(crate::specs::Slice::every))]
pub fn all_nonzero(p: u32, v: &[u32], m: usize) -> bool
    ensures { result ≡ all_nonzero p m v.now }
{
    if v.len() < m {
        return false;
    }
    let mut ok = true;
    for x in &v[..m] {
        ok = still(still(ok, 0 < *x), *x < p);
    }
    ok
}

#[tactic(auto, unfolding(crate::specs::Slice::fifteen, crate::specs::Slice::overwrite))]
pub fn take15(v: &[u32], n: usize) -> [u32; 15]
    ensures { result ≡ fifteen n v.now }
{
    let mut out = [0u32; 15];
    if 15 < n {
        return out;
    }
    if v.len() < n {
        return out;
    }
    for i in 0..n {
        out[i] = v[i];
    }
    out
}

// One place becomes x; nothing where it is not there.
pub fn write(v: &mut [u32], at: usize, x: u32)
    ensures { v.new ≡ set v.old at x }
{
    if at < v.len() {
        v[at] = x;
    }
}
