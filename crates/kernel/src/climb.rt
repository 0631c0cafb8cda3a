// How far a pair climbs.
ghost use Rattle.std.specs.Prelude.{◌≡◌, ◌≤◌};
ghost use Rattle.kernel.specs.Kernel.{climbed, evaluated};

use super::evaluate::arrive;
use super::stacks::top_at;
use super::{Climber, Evals, Kernel, Points};
use field::modular;

// While the top has the pair's level, below the last: the pair takes both tops in and goes up. An opening's is evaluated at each level.
pub(crate) fn climb<const EVALUATING: bool>(
    p: u32,
    challenges: &[u32; 15],
    last: u32,
    at: Points,
    k: &Kernel,
    first: usize,
    f: u32,
    g: u32,
    evals: &mut Evals,
) -> Climber
    requires { (last ≤ 15) × (first ≤ 16) × (at.on ≡ EVALUATING) }
    ensures { (result ≡ climbed p challenges.now last k.now.flevels k.now.fvalues k.now.gvalues first f g) × (evals.new ≡ evaluated p challenges.now last at k.now.flevels k.now.fvalues k.now.gvalues first f g evals.old) }
{
    let mut count = first;
    let mut level: u32 = 0;
    let mut a = f;
    let mut b = g;
    // No range says how often: the stack's top ends it.
    loop {
        arrive::<EVALUATING>(p, at, evals, level, a, b);
        if level >= last || !top_at(&k.flevels, count, level) {
            break;
        }
        let c = challenges[level as usize];
        count -= 1;
        a = modular::add_mul(p, a, c, k.fvalues[count]);
        b = modular::add_mul(p, b, c, k.gvalues[count]);
        level += 1;
    }
    Climber {
        count,
        level,
        f: a,
        g: b,
    }
}
