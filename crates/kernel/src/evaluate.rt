// The evaluations of an opening pass, at each level that a pair comes to.
ghost use Rattle.std.specs.Prelude.{◌≡◌, ◌≤◌};
ghost use Rattle.kernel.specs.Kernel.{horner_at, arrived};

use super::{Evals, Points};
use field::modular;

// One step of Horner's rule at a level: the stream runs from the last item.
#[tactic(auto, unfolding(crate::specs::Kernel::horner_at))]
fn horner(p: u32, x: u32, sums: &mut [u32; 16], level: u32, item: u32)
    requires { level ≤ 15 }
    ensures { sums.new ≡ horner_at p x sums.old level item }
{
    let at = level as usize;
    sums[at] = modular::add_mul(p, item, sums[at], x);
}

// A pair comes to a level.
#[tactic(auto, unfolding(crate::specs::Kernel::arrived))]
pub(crate) fn arrive<const EVALUATING: bool>(
    p: u32,
    at: Points,
    evals: &mut Evals,
    level: u32,
    f: u32,
    g: u32,
)
    requires { (level ≤ 15) × (at.on ≡ EVALUATING) }
    ensures { evals.new ≡ arrived p at evals.old level f g }
{
    if EVALUATING {
        horner(p, at.point, &mut evals.fpoint, level, f);
        horner(p, at.minus, &mut evals.fminus, level, f);
        horner(p, at.square, &mut evals.fsquare, level, f);
        horner(p, at.point, &mut evals.gpoint, level, g);
        horner(p, at.minus, &mut evals.gminus, level, g);
        horner(p, at.square, &mut evals.gsquare, level, g);
    }
}
