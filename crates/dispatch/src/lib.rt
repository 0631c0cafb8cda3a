// Makes a call that is given as data: one function for a run, one for a verifier.
#![tactic(auto)]

ghost use Rattle.std.specs.Prelude.{◌≡◌};
ghost use Rattle.prover.specs.Records.{out, leaves};
ghost use Rattle.prover.specs.Calls.{give_call};
ghost use Rattle.item.specs.Start.{modulus_of};
ghost use Rattle.calls.specs.Step.{lending, step};
ghost use Rattle.dispatch.specs.Made.{result_of};

pub mod blocks;
pub mod named;
pub mod query;
pub mod within;

use calls::Call;
use item::Given;
use pass::Pass;
use prover::{Run, Step};

// An item of either kind of run.
fn give(run: Run, pass: Pass, given: Given, f: &mut [u32], g: &mut [u32]) -> Step
    ensures { out result f.new g.new ≡ leaves run pass f.old g.old (give_call (modulus_of run.start) run pass given f.old g.old) }
{
    match given {
        Given::Reading(reading, weight) => run.item(pass, reading, weight, f, g),
        Given::Numbers(a, b) => run.field_item(pass, a, b, f, g),
    }
}

// Makes a call of a run. The two buffers and the file are lent; a call that has no use for one leaves it.
#[tactic(auto, unfolding(calls::specs::Step::step))]
pub fn make(run: Run, pass: Pass, call: Call, f: &mut [u32], g: &mut [u32], file: &mut [u8]) -> Step
    ensures { result_of result f.new g.new file.new ≡ step (modulus_of run.start) run pass call (lending f.old g.old file.old) }
{
    match call {
        Call::OpenPass => run.open_pass(pass),
        Call::OpenAt(point) => run.open_at(pass, point),
        Call::ToFull => run.to_full(pass, f, g),
        Call::ToSmall => run.to_small(pass),
        Call::Give(given) => give(run, pass, given, f, g),
        Call::Close => run.close(pass),
        Call::Message => run.message(pass, f, g),
        Call::Challenge(c) => run.challenge(pass, c, f, g),
        Call::Ends => run.ends(pass, f, g),
        Call::Opening(point) => run.opening(pass, point, f, g),
        Call::WriteProof => run.write_proof(pass, file),
    }
}
