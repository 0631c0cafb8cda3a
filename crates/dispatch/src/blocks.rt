// The block of items that a record names: the bytes of a slot, or two parts of the scratch list.
ghost use Rattle.std.specs.Prelude.{◌≡◌, take, drop};
ghost use Rattle.item.specs.Start.{modulus_of};
ghost use Rattle.prover.specs.Records.{out, leaves};
ghost use Rattle.prover.specs.Blocks.{items_call};
ghost use Rattle.verifier.specs.Records as heard;
ghost use Rattle.verifier.specs.Blocks.{items};
ghost use Rattle.calls.specs.QueryStep.{replying};
ghost use Rattle.dispatch.specs.Told.{heard_in};
ghost use Rattle.dispatch.specs.Blocks.{names_slot, block_named, block_fits};

use super::query::{Heard, stepped};
use pass::Pass;
use prover::{Run, Step};
use records::Record;
use records::lists::Lists;
use records::parts::within;
use records::slots::Slots;
use verifier::Verifier;

// A slot, not parts of the scratch list.
fn names_slot(r: Record) -> bool
    ensures { result ≡ names_slot r }
{
    matches!(r.op, 26 | 43)
}

// Whether the slot, or so many numbers, are there.
pub fn fits(l: &Lists, r: Record) -> bool
    ensures { result ≡ block_fits l.now r }
{
    if names_slot(r) {
        return r.a <= 7;
    }
    l.has(r.a, r.b)
}

fn to_run(
    run: Run,
    pass: Pass,
    l: &Lists,
    s: &Slots,
    r: Record,
    f: &mut [u32],
    g: &mut [u32],
) -> Step
    ensures { out result f.new g.new ≡ leaves run pass f.old g.old (items_call (modulus_of run.start) run pass (block_named l.now s.now r) f.old g.old) }
{
    if names_slot(r) {
        return run.items(pass, s.slot(r.a), f, g);
    }
    let a = l.part(0, r.a);
    let b = l.part(r.a, r.b);
    run.field_items(pass, a, b, f, g)
}

// To a run, on longer buffers, of which only the first places are lent; as many as there are.
pub fn to_run_within(
    run: Run,
    pass: Pass,
    l: &Lists,
    s: &Slots,
    r: Record,
    f: &mut [u32],
    g: &mut [u32],
) -> Step
    ensures { (out result (take l.now.flent f.new) (take l.now.glent g.new) ≡ leaves run pass (take l.now.flent f.old) (take l.now.glent g.old) (items_call (modulus_of run.start) run pass (block_named l.now s.now r) (take l.now.flent f.old) (take l.now.glent g.old))) × (drop l.now.flent f.new ≡ drop l.now.flent f.old) × (drop l.now.glent g.new ≡ drop l.now.glent g.old) }
{
    let n = within(l.flent, f);
    let m = within(l.glent, g);
    to_run(run, pass, l, s, r, &mut f[..n], &mut g[..m])
}

// To a verifier.
pub fn to_verifier(verifier: Verifier, l: &Lists, s: &Slots, r: Record) -> Heard
    ensures { heard_in result ≡ replying (heard.leaves verifier (items (modulus_of verifier.start) verifier (block_named l.now s.now r))) }
{
    if names_slot(r) {
        return stepped(verifier.items(s.slot(r.a)));
    }
    let a = l.part(0, r.a);
    let b = l.part(r.a, r.b);
    stepped(verifier.field_items(a, b))
}
