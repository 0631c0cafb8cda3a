// The change to full mode, whose pass is opened here and whose items write the buffers, and the return to small mode.
ghost use Rattle.std.specs.Prelude.{◌≡◌, []};
ghost use Rattle.item.specs.Start.{modulus_of};
ghost use Rattle.prover.specs.Records.{out, leaves};
ghost use Rattle.prover.specs.Change.{to_full_call, to_small_call};

use super::answers::{answered, refuse};
use super::close::in_mode;
use super::formed::well_formed;
use super::stage::stage_of;
use super::{Reply, Run, Step};
use pass::{Pass, lent, open};
use phase::{Mode, turns};
use refusal::Refusal;

impl Run {
    // Opens the pass that changes to full mode, and writes the places that the padding completes.
    #[tactic(auto, using(crate::proofs::Branches::branches), unfolding(crate::specs::Change::to_full_call))]
    pub fn to_full(self, pass: Pass, f: &mut [u32], g: &mut [u32]) -> Step
        ensures { out result f.new g.new ≡ leaves self pass f.old g.old (to_full_call (modulus_of self.start) self pass f.old g.old) }
    {
        let well = well_formed(item::modulus_of(self.start), self, pass);
        let true = turns::change(well, self.mode, self.next, self.start.rounds) else {
            return refuse(self, pass, Refusal::Order);
        };
        let stage = stage_of(self);
        let true = lent::both_long(stage, f.len(), g.len()) else {
            return refuse(self, pass, Refusal::Buffer);
        };
        lent::pad(stage, f);
        lent::pad(stage, g);
        answered(self, open::change(stage), Reply::Opened)
    }

    // From full to small mode: nothing is lent, and no pass is needed.
    #[tactic(auto, using(crate::proofs::Branches::branches), unfolding(crate::specs::Change::to_small_call))]
    pub fn to_small(self, pass: Pass) -> Step
        ensures { out result [] [] ≡ leaves self pass [] [] (to_small_call (modulus_of self.start) self pass) }
    {
        let well = well_formed(item::modulus_of(self.start), self, pass);
        let true = turns::back(well, self.mode, self.next, self.start.rounds) else {
            return refuse(self, pass, Refusal::Order);
        };
        answered(in_mode(self, Mode::Small), pass, Reply::Changed)
    }
}
