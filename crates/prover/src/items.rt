// The items of a pass.
ghost use Rattle.std.specs.Prelude.{◌≡◌};
ghost use Rattle.item.specs.Start.{modulus_of};
ghost use Rattle.item.specs.declared.Given.TheVariants as Given;
ghost use Rattle.prover.specs.Records.{out, leaves};
ghost use Rattle.prover.specs.Calls.{give_call};

use super::answers::{answered, refuse};
use super::formed::well_formed;
use super::stage::stage_of;
use super::{Reply, Run, Step};
use item::Given;
use pass::{Pass, checks, items};

// An item of either kind of run. The buffers matter in a change pass only.
#[tactic(auto, using(crate::proofs::Branches::branches), unfolding(crate::specs::Calls::give_call, crate::specs::Take::takes))]
fn give(p: u32, run: Run, pass: Pass, given: Given, f: &mut [u32], g: &mut [u32]) -> Step
    ensures { out result f.new g.new ≡ leaves run pass f.old g.old (give_call p run pass given f.old g.old) }
{
    let well = well_formed(p, run, pass);
    let stage = stage_of(run);
    match checks::item(
        p,
        stage,
        well,
        pass.kind,
        pass.taken,
        given,
        f.len(),
        g.len(),
    ) {
        Ok(x) => answered(run, items::take(p, stage, pass, x, f, g), Reply::Taken),
        Err(refusal) => refuse(run, pass, refusal),
    }
}

impl Run {
    // A reading and a weight of a plain run.
    #[tactic(auto, using(crate::proofs::Branches::branches), unfolding(crate::specs::Calls::give_call))]
    pub fn item(self, pass: Pass, reading: i32, weight: u16, f: &mut [u32], g: &mut [u32]) -> Step
        ensures { out result f.new g.new ≡ leaves self pass f.old g.old (give_call (modulus_of self.start) self pass (Given.Reading reading weight) f.old g.old) }
    {
        let p = item::modulus_of(self.start);
        give(p, self, pass, Given::Reading(reading, weight), f, g)
    }

    // Two field numbers of a twisted run.
    #[tactic(auto, using(crate::proofs::Branches::branches), unfolding(crate::specs::Calls::give_call))]
    pub fn field_item(self, pass: Pass, a: u32, b: u32, f: &mut [u32], g: &mut [u32]) -> Step
        ensures { out result f.new g.new ≡ leaves self pass f.old g.old (give_call (modulus_of self.start) self pass (Given.Numbers a b) f.old g.old) }
    {
        let p = item::modulus_of(self.start);
        give(p, self, pass, Given::Numbers(a, b), f, g)
    }
}
