// The two lent buffers. A pass knows of its run only the stage.
ghost use Rattle.std.specs.Prelude.{◌≡◌, ◌+◌, ◌≤◌, ◌<◌, ◌^◌, length};
ghost use Rattle.refusal.specs.Refusal.{outcome};
ghost use Rattle.vector.specs.Vector.{at};
ghost use Rattle.vector.specs.Opening.{opening};
ghost use Rattle.pass.specs.Lent.{long_in, places_in, reduced_in, good_in, challenge_in, folded_in, cleared, padded_places, padded_lent, padded, opened_lent};
ghost use Rattle.pass.specs.Values.{in_ninety};

use super::open::points_of;
use super::{Stage, values};
use phase::{Kind, Mode, folds, levels};
use refusal::{Refusal, require};
use vector::slice::{all_reduced, write};

// 9: both buffers are as long as the current fold.
pub fn both_long(stage: Stage, flen: usize, glen: usize) -> bool
    ensures { result ≡ long_in stage flen glen }
{
    let start = stage.start;
    let size = levels::fold_size(start.rounds, stage.round, stage.next) as usize;
    size <= flen && size <= glen
}

// 9 of an item: its buffers matter in a change pass only.
pub(crate) fn places_there(stage: Stage, kind: Kind, flen: usize, glen: usize) -> bool
    ensures { result ≡ places_in stage kind flen glen }
{
    kind != Kind::Change || both_long(stage, flen, glen)
}

// 16: the places of the current fold are field numbers, in f and in g.
fn both_reduced(p: u32, stage: Stage, f: &[u32], g: &[u32]) -> bool
    ensures { result ≡ reduced_in p stage f.now g.now }
{
    let start = stage.start;
    let size = levels::fold_size(start.rounds, stage.round, stage.next) as usize;
    all_reduced(p, f, size) && all_reduced(p, g, size)
}

// 9, then 16: what the places of the current fold are.
pub fn both_good(p: u32, stage: Stage, f: &[u32], g: &[u32]) -> Result<(), Refusal>
    ensures { outcome result ≡ good_in p stage f.now g.now }
{
    require(both_long(stage, f.len(), g.len()), Refusal::Buffer)?;
    require(both_reduced(p, stage, f, g), Refusal::Vector)
}

// A challenge in both buffers: in full mode they are folded; in small mode nothing is lent.
pub fn challenge(
    p: u32,
    stage: Stage,
    mode: Mode,
    c: u32,
    f: &mut [u32],
    g: &mut [u32],
) -> Result<(), Refusal>
    ensures { (outcome result ≡ challenge_in p stage mode f.old g.old) × (f.new ≡ folded_in p stage mode c f.old g.old f.old) × (g.new ≡ folded_in p stage mode c f.old g.old g.old) }
{
    if mode == Mode::Small {
        return Ok(());
    }
    both_good(p, stage, f, g)?;
    let start = stage.start;
    folds::fold(p, c, start.rounds, stage.round, stage.next, f);
    folds::fold(p, c, start.rounds, stage.round, stage.next, g);
    Ok(())
}

#[tactic(auto, unfolding(crate::specs::Lent::cleared))]
fn clear(v: &mut [u32], from: usize, count: usize)
    requires { from + count < 2 ^ 64 }
    ensures { v.new ≡ cleared from count v.old }
{
    for k in 0..count {
        write(v, from + k, 0);
    }
}

// How many places of the fold the padding completes.
fn padded_places(stage: Stage) -> u32
    requires { (stage.start.rounds ≤ 15) × (stage.round ≤ stage.start.rounds) }
    ensures { result ≡ padded_places stage }
{
    let start = stage.start;
    let level = levels::level_of(start.rounds, stage.round, stage.next, Kind::Change);
    levels::padding_of(start.items, start.rounds) >> level
}

fn pad_fitting(stage: Stage, v: &mut [u32])
    requires { (stage.start.rounds ≤ 15) × (stage.round ≤ stage.start.rounds) }
    ensures { v.new ≡ padded_lent stage v.old }
{
    let start = stage.start;
    let size = levels::fold_size(start.rounds, stage.round, stage.next);
    let count = padded_places(stage);
    clear(v, size.saturating_sub(count) as usize, count as usize);
}

// Writes the places that the padding completes.
pub fn pad(stage: Stage, v: &mut [u32])
    ensures { v.new ≡ padded stage v.old }
{
    let start = stage.start;
    if start.rounds <= refusal::MAX_ROUNDS && stage.round <= start.rounds {
        pad_fitting(stage, v);
    }
}

// The twists are in fold 0 already, so that its places enter as they are.
fn open_fitting(p: u32, stage: Stage, b: u32, f: &[u32], g: &[u32]) -> [u32; 90]
    requires { (stage.start.rounds ≤ 15) × (2 ^ stage.start.rounds ≤ length f.now) × (2 ^ stage.start.rounds ≤ length g.now) }
    ensures { result ≡ in_ninety stage.start.rounds (opening p stage.start.rounds (at stage.challenges) (at f.now) (at g.now) b) }
{
    let challenges = stage.challenges;
    let start = stage.start;
    let count = vector::sizes::size_of(start.rounds, 0) as usize;
    let points = points_of(p, b);
    let k = kernel::evaluate_all(
        p,
        challenges,
        start.rounds,
        points,
        kernel::start::empty(),
        &f[..count],
        &g[..count],
    );
    let evals = k.evals;
    values::values_of(evals, start.rounds)
}

// The values of an opening of fold 0; zeros where it is not there.
#[tactic(auto, using(crate::proofs::Facts::size_32))]
pub fn opening(p: u32, stage: Stage, b: u32, f: &[u32], g: &[u32]) -> [u32; 90]
    ensures { result ≡ opened_lent p stage b f.now g.now }
{
    let start = stage.start;
    let none = [0u32; 90];
    if start.rounds > refusal::MAX_ROUNDS {
        return none;
    }
    let count = vector::sizes::size_of(start.rounds, 0) as usize;
    if f.len() < count {
        return none;
    }
    if g.len() < count {
        return none;
    }
    open_fitting(p, stage, b, f, g)
}
