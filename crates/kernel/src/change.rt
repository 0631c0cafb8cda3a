// The pairs of a change pass: each writes the places that it completes.
ghost use Rattle.std.specs.Prelude.{◌≡◌, ◌≤◌};
ghost use Rattle.kernel.specs.Kernel.{stacks_in};
ghost use Rattle.kernel.specs.Change.{left_in, place_after, put_in};

use super::stacks::push;
use super::{Climber, Kernel};
use vector::slice::write;

// A pair at the last level is an item of the current fold, and goes; any other is pushed.
#[tactic(auto, unfolding(crate::specs::Change::left))]
pub(crate) fn leave(last: u32, k: &mut Kernel, c: Climber) -> usize
    requires { c.count ≤ 16 }
    ensures { stacks_in k.new.flevels k.new.fvalues k.new.glevels k.new.gvalues result ≡ left_in last k.old c }
{
    if c.level == last {
        return c.count;
    }
    push(k, c)
}

fn place_after(size: usize, last: u32, t: usize) -> usize
    requires { last ≤ 15 }
    ensures { result ≡ place_after size last t }
{
    let q = t >> last;
    if size <= q {
        return 0;
    }
    size - 1 - q
}

// "each place by the call that completes its value"
pub(crate) fn put(size: usize, last: u32, t: usize, c: Climber, f: &mut [u32], g: &mut [u32])
    requires { last ≤ 15 }
    ensures { (f.new ≡ put_in size last t c.level c.f f.old) × (g.new ≡ put_in size last t c.level c.g g.old) }
{
    if c.level == last {
        let at = place_after(size, last, t);
        write(f, at, c.f);
        write(g, at, c.g);
    }
}
