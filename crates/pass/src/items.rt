// An item of a pass.
ghost use Rattle.std.specs.Prelude.{◌≡◌, ◌<◌, ◌≤◌};
ghost use Rattle.kernel.specs.Kernel.{entered};
ghost use Rattle.kernel.specs.Change.{placed_of, placed};
ghost use Rattle.pass.specs.Take.{running, summed_item, one_more, moved, takes_in, taken_in, fits_in};

use super::{Pass, Stage, kernels};
use item::Item;
use kernel::{Kernel, Points};
use phase::{Kind, Next, levels};

// The running product of a twisted run's total; a plain total needs none.
fn running(p: u32, plain: bool, dot: u32, f: u32, g: u32) -> u32
    ensures { result ≡ running p plain dot f g }
{
    if plain {
        return dot;
    }
    field::modular::add_mul(p, dot, f, g)
}

// An item of a pass for the total.
#[tactic(auto, unfolding(crate::specs::Take::summed_item))]
fn sum(p: u32, plain: bool, pass: Pass, x: Item, f: u32) -> Pass
    requires { pass.taken < 32768 }
    ensures { result ≡ summed_item p plain pass x f }
{
    let total = field::total::plus(pass.total, x.worth);
    let dot = running(p, plain, pass.dot, f, x.g);
    Pass {
        taken: pass.taken + 1,
        total,
        dot,
        ..pass
    }
}

// A pair of a pass that was asked for enters the stacks.
#[tactic(auto, unfolding(kernel::specs::Kernel::streamed))]
fn enter(
    p: u32,
    challenges: [u32; 15],
    level: u32,
    points: Points,
    k: Kernel,
    f: u32,
    g: u32,
) -> Kernel
    ensures { result ≡ entered p challenges level points k f g }
{
    let a = [f];
    let b = [g];
    kernel::evaluate_all(p, challenges, level, points, k, &a, &b)
}

// A pair of a change pass: "each place by the call that completes its value".
#[tactic(auto, unfolding(kernel::specs::Change::placed_all))]
fn place(
    p: u32,
    challenges: [u32; 15],
    level: u32,
    size: u32,
    taken: u32,
    k: Kernel,
    x: u32,
    y: u32,
    f: &mut [u32],
    g: &mut [u32],
) -> Kernel
    ensures { placed_of result f.new g.new ≡ placed p challenges level size taken (placed_of k f.old g.old) x y }
{
    let a = [x];
    let b = [y];
    kernel::place_all(p, challenges, level, size, taken, k, &a, &b, f, g)
}

fn one_more(pass: Pass) -> Pass
    requires { pass.taken < 32768 }
    ensures { result ≡ one_more pass }
{
    Pass {
        taken: pass.taken + 1,
        ..pass
    }
}

// n items more are within a run's limits and wanted.
#[tactic(auto, unfolding(crate::specs::Take::fits_in))]
pub(crate) fn wanted(stage: Stage, taken: u32, n: usize) -> bool
    requires { n < 18446744069414584320 }
    ensures { result ≡ fits_in stage taken n }
{
    let start = stage.start;
    start.rounds <= refusal::MAX_ROUNDS
        && start.items <= refusal::MAX_ITEMS
        && (taken as usize) + n <= (start.items as usize)
}

#[tactic(auto, using(crate::proofs::Facts::padding_few))]
fn take_fitting(p: u32, stage: Stage, pass: Pass, x: Item, f: &mut [u32], g: &mut [u32]) -> Pass
    requires { (stage.start.rounds ≤ 15) × (stage.start.items ≤ 32768) × (pass.taken < stage.start.items) }
    ensures { moved result f.new g.new ≡ takes_in p stage pass x f.old g.old }
{
    let start = stage.start;
    let a = item::enters_as(p, start, start.items - 1 - pass.taken, x.f);
    if stage.next == Next::Total {
        return sum(p, start.plain, pass, x, a);
    }
    let challenges = stage.challenges;
    let kind = pass.kind;
    let level = levels::level_of(start.rounds, stage.round, stage.next, kind);
    let k = kernels::kernel_of(pass);
    if kind == Kind::Change {
        let size = levels::fold_size(start.rounds, stage.round, stage.next);
        let taken = levels::padding_of(start.items, start.rounds) + pass.taken;
        let after = place(p, challenges, level, size, taken, k, a, x.g, f, g);
        return kernels::with_kernel(one_more(pass), after);
    }
    let points = pass.points;
    let after = enter(p, challenges, level, points, k, a, x.g);
    kernels::with_kernel(one_more(pass), after)
}

// An item whose checks passed.
#[tactic(auto, using(crate::proofs::Facts::fitting))]
pub fn take(p: u32, stage: Stage, pass: Pass, x: Item, f: &mut [u32], g: &mut [u32]) -> Pass
    ensures { moved result f.new g.new ≡ taken_in p stage pass x f.old g.old }
{
    if wanted(stage, pass.taken, 1) {
        return take_fitting(p, stage, pass, x, f, g);
    }
    pass
}
