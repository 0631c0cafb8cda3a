// The proof file of a plain run.
ghost use Rattle.std.specs.Prelude.{◌≡◌, []};
ghost use Rattle.wire.specs.Proof.{written_in};
ghost use Rattle.item.specs.Start.{modulus_of};
ghost use Rattle.prover.specs.Records.{out};
ghost use Rattle.prover.specs.Written.{write_call, written_step, run_proof};

use super::answers::{answer, refuse};
use super::formed::well_formed;
use super::{Reply, Run, Step};
use pass::Pass;
use phase::turns;
use refusal::Refusal;

impl Run {
    // Writes the proof into the first places of `file`; the run goes on.
    #[tactic(auto, using(crate::proofs::Branches::branches), unfolding(crate::specs::Written::write_call, wire::specs::Proof::written_in))]
    pub fn write_proof(self, pass: Pass, file: &mut [u8]) -> Step
        ensures { (out result [] [] ≡ written_step self pass (write_call (modulus_of self.start) self pass file.old)) × (file.new ≡ written_in (write_call (modulus_of self.start) self pass file.old) (run_proof self) file.old) }
    {
        let p = item::modulus_of(self.start);
        let well = well_formed(p, self, pass);
        let true = turns::proof(well, self.start.plain, self.next) else {
            return refuse(self, pass, Refusal::Order);
        };
        let written = wire::proof::write_proof_in(
            p,
            self.start.rounds,
            self.total,
            self.messages,
            self.fend,
            self.gend,
            file,
        );
        answer(self, pass, written.map(Reply::Written))
    }
}
