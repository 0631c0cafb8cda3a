// The calls that open a pass of small mode.
ghost use Rattle.std.specs.Prelude.{◌≡◌, []};
ghost use Rattle.item.specs.Start.{modulus_of};
ghost use Rattle.prover.specs.Records.{out, leaves};
ghost use Rattle.prover.specs.Open.{open_call, open_at_call};

use super::answers::{answered, refuse};
use super::formed::well_formed;
use super::stage::stage_of;
use super::{Reply, Run, Step};
use field::Field;
use pass::{Pass, open};
use phase::turns;
use refusal::Refusal;

impl Run {
    // A pass for the total, the next message or the ends (`open` is a word of the contract language).
    #[tactic(auto, using(crate::proofs::Branches::branches), unfolding(crate::specs::Open::open_call))]
    pub fn open_pass(self, pass: Pass) -> Step
        ensures { out result [] [] ≡ leaves self pass [] [] (open_call (modulus_of self.start) self pass) }
    {
        let well = well_formed(item::modulus_of(self.start), self, pass);
        let true = turns::pass(well, self.mode, self.next) else {
            return refuse(self, pass, Refusal::Order);
        };
        answered(self, open::asked(stage_of(self)), Reply::Opened)
    }

    // A pass for the openings at a point.
    #[tactic(auto, using(crate::proofs::Branches::branches), unfolding(crate::specs::Open::open_at_call))]
    pub fn open_at(self, pass: Pass, point: u32) -> Step
        ensures { out result [] [] ≡ leaves self pass [] [] (open_at_call (modulus_of self.start) self pass point) }
    {
        let p = item::modulus_of(self.start);
        let well = well_formed(p, self, pass);
        let true = turns::point(well, self.mode, self.next, self.start.rounds) else {
            return refuse(self, pass, Refusal::Order);
        };
        let Some(b) = Field::nonzero_in(p, point) else {
            return refuse(self, pass, Refusal::Argument);
        };
        let fresh = open::asked_at(p, stage_of(self), u32::from(b));
        answered(self, fresh, Reply::Opened)
    }
}
