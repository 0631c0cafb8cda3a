// Openings in full mode: worked from fold 0, which the host lends again and which is only read.
ghost use Rattle.std.specs.Prelude.{◌≡◌};
ghost use Rattle.item.specs.Start.{modulus_of};
ghost use Rattle.prover.specs.Records.{out, leaves};
ghost use Rattle.prover.specs.Opening.{opening_call};

use super::answers::refuse;
use super::formed::well_formed;
use super::stage::stage_of;
use super::{Reply, Run, Step};
use field::Field;
use pass::{Pass, lent};
use phase::turns;
use refusal::Refusal;

impl Run {
    #[tactic(auto, using(crate::proofs::Branches::branches), unfolding(crate::specs::Opening::opening_call, crate::specs::Opening::opening_given))]
    pub fn opening(self, pass: Pass, point: u32, f: &[u32], g: &[u32]) -> Step
        ensures { out result f.now g.now ≡ leaves self pass f.now g.now (opening_call (modulus_of self.start) self pass point f.now g.now) }
    {
        let p = item::modulus_of(self.start);
        let well = well_formed(p, self, pass);
        let true = turns::opening(well, self.mode, self.next, self.start.rounds) else {
            return refuse(self, pass, Refusal::Order);
        };
        let Some(b) = Field::nonzero_in(p, point) else {
            return refuse(self, pass, Refusal::Argument);
        };
        let stage = stage_of(self);
        if let Err(refusal) = lent::both_good(p, stage, f, g) {
            return refuse(self, pass, refusal);
        }
        Step {
            run: self,
            pass,
            answer: Ok(Reply::Opening),
            values: lent::opening(p, stage, u32::from(b), f, g),
        }
    }
}
