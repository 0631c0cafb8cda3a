// The stacks of a small pass: pairs enter at level 0, last to first, and climb to the level that the pass folds to.
#![tactic(auto)]

ghost use Rattle.std.specs.Prelude.{◌≡◌};
ghost use Rattle.vector.specs.Vector.{at as item};
ghost use Rattle.kernel.specs.Kernel.{no_points, pairs_in, streamed};
ghost use Rattle.kernel.specs.Change.{placed_of, placed_all};

use change::{leave, put};
use climb::climb;
use stacks::{pairs, settle, stacks_fit};
use vector::Message;

mod change;
mod climb;
mod evaluate;
mod stacks;
pub mod start;

// The points of an opening pass: b, -b, b squared. Any other pass evaluates nothing. No Option: `arrived` and the passes' clauses read `on`.
#[derive(Clone, Copy)]
pub struct Points {
    pub on: bool,
    pub point: u32,
    pub minus: u32,
    pub square: u32,
}

// For each level the evaluations so far of the fold of f and of g at the three points.
#[derive(Clone, Copy)]
pub struct Evals {
    pub fpoint: [u32; 16],
    pub fminus: [u32; 16],
    pub fsquare: [u32; 16],
    pub gpoint: [u32; 16],
    pub gminus: [u32; 16],
    pub gsquare: [u32; 16],
}

// The stacks of (level, value) entries of f and g, the sums of the pairs that met at the last level, and the evaluations.
#[derive(Clone, Copy)]
pub struct Kernel {
    pub flevels: [u32; 16],
    pub fvalues: [u32; 16],
    pub fcount: usize,
    pub glevels: [u32; 16],
    pub gvalues: [u32; 16],
    pub gcount: usize,
    pub even: u32,
    pub cross: u32,
    pub odd: u32,
    pub evals: Evals,
}

// How far a pair climbed: how many entries are left below it, its level and its values.
#[derive(Clone, Copy)]
pub struct Climber {
    pub count: usize,
    pub level: u32,
    pub f: u32,
    pub g: u32,
}

#[derive(Clone, Copy)]
pub struct Settled {
    pub count: usize,
    pub sums: Message,
}

// A pass that evaluates nothing.
const NO_POINTS: Points = Points {
    on: false,
    point: 0,
    minus: 0,
    square: 0,
};

// The pairs of two slices enter, "from last item to first".
pub fn enter_all(
    p: u32,
    challenges: [u32; 15],
    last: u32,
    k: Kernel,
    f: &[u32],
    g: &[u32],
) -> Kernel
    ensures { result ≡ streamed p challenges last no_points (item f.now) (item g.now) (pairs_in f.now g.now) k }
{
    enter::<false>(p, &challenges, last, NO_POINTS, k, f, g)
}

// The pairs of any pass that was asked for; an opening's are evaluated as well.
pub fn evaluate_all(
    p: u32,
    challenges: [u32; 15],
    last: u32,
    at: Points,
    k: Kernel,
    f: &[u32],
    g: &[u32],
) -> Kernel
    ensures { result ≡ streamed p challenges last at (item f.now) (item g.now) (pairs_in f.now g.now) k }
{
    if at.on {
        enter::<true>(p, &challenges, last, at, k, f, g)
    } else {
        enter::<false>(p, &challenges, last, at, k, f, g)
    }
}

// The one loop of both. Whether it evaluates is known when it is compiled, so that no other pass pays for it.
fn enter<const EVALUATING: bool>(
    p: u32,
    challenges: &[u32; 15],
    last: u32,
    at: Points,
    k: Kernel,
    f: &[u32],
    g: &[u32],
) -> Kernel
    requires { at.on ≡ EVALUATING }
    ensures { result ≡ streamed p challenges.now last at (item f.now) (item g.now) (pairs_in f.now g.now) k }
{
    if !stacks_fit(last, k.fcount, k.gcount) {
        return k;
    }
    let mut stacks = k;
    let mut evals = k.evals;
    let mut count = k.fcount;
    let mut sums = Message {
        even: k.even,
        cross: k.cross,
        odd: k.odd,
    };
    for i in (0..pairs(f, g)).rev() {
        let c = climb::<EVALUATING>(
            p, challenges, last, at, &stacks, count, f[i], g[i], &mut evals,
        );
        let s = settle(p, last, &mut stacks, sums, c);
        count = s.count;
        sums = s.sums;
    }
    Kernel {
        fcount: count,
        gcount: count,
        even: sums.even,
        cross: sums.cross,
        odd: sums.odd,
        evals,
        ..stacks
    }
}

// A loop of its own: what `enter` sums, this writes to two lent buffers, and a closure over four loans would be no plainer.
// The pairs of a change pass that writes a fold of this size, after so many pairs: each place by the pair that completes it.
pub fn place_all(
    p: u32,
    challenges: [u32; 15],
    last: u32,
    size: u32,
    taken: u32,
    k: Kernel,
    a: &[u32],
    b: &[u32],
    f: &mut [u32],
    g: &mut [u32],
) -> Kernel
    ensures { placed_of result f.new g.new ≡ placed_all p challenges last size (item a.now) (item b.now) (pairs_in a.now b.now) taken (placed_of k f.old g.old) }
{
    if !stacks_fit(last, k.fcount, k.gcount) {
        return k;
    }
    let mut stacks = k;
    let mut evals = k.evals;
    let mut count = k.fcount;
    let mut t = taken as usize;
    for i in (0..pairs(a, b)).rev() {
        let c = climb::<false>(
            p,
            &challenges,
            last,
            NO_POINTS,
            &stacks,
            count,
            a[i],
            b[i],
            &mut evals,
        );
        put(size as usize, last, t, c, f, g);
        count = leave(last, &mut stacks, c);
        t += 1;
    }
    Kernel {
        fcount: count,
        gcount: count,
        even: k.even,
        cross: k.cross,
        odd: k.odd,
        evals,
        ..stacks
    }
}
