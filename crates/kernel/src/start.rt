// The kernel that a pass opens with.
ghost use Rattle.std.specs.Prelude.{◌≡◌, ◌≤◌};
ghost use Rattle.kernel.specs.Kernel.{empty_kernel, pushed_zero, padding_below, padding_kernel};

use super::{Evals, Kernel};

// A pass that has taken nothing.
pub fn empty() -> Kernel
    ensures { result ≡ empty_kernel }
{
    let zeros = [0u32; 16];
    Kernel {
        flevels: zeros,
        fvalues: zeros,
        fcount: 0,
        glevels: zeros,
        gvalues: zeros,
        gcount: 0,
        even: 0,
        cross: 0,
        odd: 0,
        evals: Evals {
            fpoint: zeros,
            fminus: zeros,
            fsquare: zeros,
            gpoint: zeros,
            gminus: zeros,
            gsquare: zeros,
        },
    }
}

fn push_zero(k: Kernel, level: u32) -> Kernel
    requires { (k.fcount ≤ 15) × (k.gcount ≤ 15) }
    ensures { result ≡ pushed_zero k level }
{
    let fcount = k.fcount;
    let gcount = k.gcount;
    let mut next = k;
    next.flevels[fcount] = level;
    next.fvalues[fcount] = 0;
    next.fcount = fcount + 1;
    next.glevels[gcount] = level;
    next.gvalues[gcount] = 0;
    next.gcount = gcount + 1;
    next
}

// The padding in one step, in stacks of so many levels: what so many zero pairs leave, an entry of value zero for each binary one.
#[tactic(auto, using(crate::proofs::KernelSteps::pads_one, crate::proofs::KernelSteps::pads_none), unfolding(crate::specs::Kernel::padding_below, crate::specs::Kernel::padding_from))]
pub fn padding_below(taken: u32, height: u32) -> Kernel
    ensures { result ≡ padding_below taken height }
{
    let mut k = empty();
    if height > 16 {
        return k;
    }
    for level in (0..height).rev() {
        if (taken >> level) % 2 == 1 {
            k = push_zero(k, level);
        }
    }
    k
}

// Of a pass that folds to a level: the stacks keep that level too.
#[tactic(auto, unfolding(crate::specs::Kernel::padding_below))]
pub fn padding(taken: u32, last: u32) -> Kernel
    ensures { result ≡ padding_kernel taken last }
{
    if last > refusal::MAX_ROUNDS {
        return empty();
    }
    padding_below(taken, last + 1)
}
