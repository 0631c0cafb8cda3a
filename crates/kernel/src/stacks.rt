// The two stacks in arrays. The levels of f are the control; those of g are written alike.
ghost use Rattle.std.specs.Prelude.{◌≡◌, ◌≤◌, ◌<◌, ◌^◌};
ghost use Rattle.kernel.specs.Kernel.{stacks_fit, pairs_in, top_at, summed, meets_at, sums_after, settled_in, pushed, stacks_in};

use super::{Climber, Kernel, Settled};
use field::modular;
use vector::Message;

#[tactic(auto, unfolding(crate::specs::Kernel::stacks_fit))]
pub(crate) fn stacks_fit(last: u32, fcount: usize, gcount: usize) -> bool
    ensures { result ≡ stacks_fit last fcount gcount }
{
    last <= refusal::MAX_ROUNDS && fcount <= 16 && gcount == fcount
}

// As many pairs as both slices have places.
pub(crate) fn pairs(f: &[u32], g: &[u32]) -> usize
    ensures { (result ≡ pairs_in f.now g.now) × (result < 2 ^ 63) }
{
    usize::min(f.len(), g.len())
}

// Whether a stack, cut to its first entries, has a top of the level.
#[tactic(auto, unfolding(crate::specs::Kernel::top_at))]
pub(crate) fn top_at(levels: &[u32; 16], count: usize, level: u32) -> bool
    requires { count ≤ 16 }
    ensures { result ≡ top_at levels.now count level }
{
    count > 0 && levels[count - 1] == level
}

// Whether the climber is at the last level and meets a pair there.
#[tactic(auto, unfolding(crate::specs::Kernel::meets_at))]
fn meets(last: u32, levels: &[u32; 16], c: Climber) -> bool
    requires { c.count ≤ 16 }
    ensures { result ≡ meets_at last levels.now c }
{
    c.level == last && top_at(levels, c.count, last)
}

// Two pairs have met at the last level: the climber is item 2i, f and g are item 2i + 1.
#[tactic(auto, unfolding(crate::specs::Kernel::summed))]
fn meet(p: u32, s: Message, c: Climber, f: u32, g: u32) -> Message
    ensures { result ≡ summed p s c f g }
{
    Message {
        even: modular::add_mul(p, s.even, c.f, c.g),
        cross: modular::add_mul(p, modular::add_mul(p, s.cross, c.f, g), f, c.g),
        odd: modular::add_mul(p, s.odd, f, g),
    }
}

// Pairs that meet at the last level make their products and go; any other is pushed. No pass meets a full stack.
#[tactic(auto, using(crate::proofs::KernelSteps::meet_place), unfolding(crate::specs::Kernel::settled, crate::specs::Kernel::sums_after))]
pub(crate) fn settle(p: u32, last: u32, k: &mut Kernel, s: Message, c: Climber) -> Settled
    requires { c.count ≤ 16 }
    ensures { (stacks_in k.new.flevels k.new.fvalues k.new.glevels k.new.gvalues result.count ≡ settled_in last k.old c) × (result.sums ≡ sums_after p last k.old.flevels k.old.fvalues k.old.gvalues s c) }
{
    if meets(last, &k.flevels, c) {
        let count = c.count - 1;
        return Settled {
            count,
            sums: meet(p, s, c, k.fvalues[count], k.gvalues[count]),
        };
    }
    Settled {
        count: push(k, c),
        sums: s,
    }
}

// A pair waits on top for the next of its level.
pub(crate) fn push(k: &mut Kernel, c: Climber) -> usize
    requires { c.count ≤ 16 }
    ensures { stacks_in k.new.flevels k.new.fvalues k.new.glevels k.new.gvalues result ≡ pushed k.old.flevels k.old.fvalues k.old.glevels k.old.gvalues c }
{
    let at = c.count;
    if at > 15 {
        return at;
    }
    k.flevels[at] = c.level;
    k.fvalues[at] = c.f;
    k.glevels[at] = c.level;
    k.gvalues[at] = c.g;
    at + 1
}
