// A pass that has taken no item.
ghost use Rattle.std.specs.Prelude.{◌≡◌};
ghost use Rattle.pass.specs.Open.{new_pass, no_points, empty_pass, points_of, padded_in, open_in, asked_in, asked_at, change_in};

use super::{Pass, Stage};
use field::modular;
use kernel::{Kernel, Points};
use phase::{Kind, Next, levels};

fn new_pass(kind: Kind, points: Points, k: Kernel) -> Pass
    ensures { result ≡ new_pass kind points k }
{
    let Kernel {
        flevels,
        fvalues,
        fcount,
        glevels,
        gvalues,
        gcount,
        even,
        cross,
        odd,
        evals,
    } = k;
    Pass {
        kind,
        taken: 0,
        total: 0,
        dot: 0,
        points,
        flevels,
        fvalues,
        fcount,
        glevels,
        gvalues,
        gcount,
        even,
        cross,
        odd,
        evals,
    }
}

// A pass that evaluates nothing.
fn no_points() -> Points
    ensures { result ≡ no_points }
{
    Points {
        on: false,
        point: 0,
        minus: 0,
        square: 0,
    }
}

pub fn points_of(p: u32, point: u32) -> Points
    ensures { result ≡ points_of p point }
{
    let minus = modular::neg(p, point);
    let square = modular::mul(p, point, point);
    Points {
        on: true,
        point,
        minus,
        square,
    }
}

// A pass of a kind that has taken nothing.
pub fn empty_pass(kind: Kind) -> Pass
    ensures { result ≡ empty_pass kind }
{
    new_pass(kind, no_points(), kernel::start::empty())
}

// The padding taken.
fn padded(stage: Stage) -> Kernel
    ensures { result ≡ padded_in stage }
{
    let start = stage.start;
    let padding = levels::padding_of(start.items, start.rounds);
    let level = levels::level_of(start.rounds, stage.round, stage.next, Kind::Asked);
    kernel::start::padding(padding, level)
}

// A pass for the total has no stack.
fn open_kernel(stage: Stage) -> Kernel
    ensures { result ≡ open_in stage }
{
    if stage.next == Next::Total {
        return kernel::start::empty();
    }
    padded(stage)
}

// A pass for what is next.
pub fn asked(stage: Stage) -> Pass
    ensures { result ≡ asked_in stage }
{
    new_pass(Kind::Asked, no_points(), open_kernel(stage))
}

// A pass for the openings at a point.
pub fn asked_at(p: u32, stage: Stage, point: u32) -> Pass
    ensures { result ≡ asked_at p stage point }
{
    new_pass(Kind::Asked, points_of(p, point), padded(stage))
}

// A pass that changes to full mode.
pub fn change(stage: Stage) -> Pass
    ensures { result ≡ change_in stage }
{
    let start = stage.start;
    let level = levels::level_of(start.rounds, stage.round, stage.next, Kind::Change);
    let padding = levels::padding_of(start.items, start.rounds);
    let k = kernel::start::padding_below(padding, level);
    new_pass(Kind::Change, no_points(), k)
}
