// The calls of full mode: both vectors lie in lent buffers, which these calls only read.
ghost use Rattle.std.specs.Prelude.{◌≡◌, ◌≤◌, ◌<◌, length};
ghost use Rattle.item.specs.Start.{modulus_of};
ghost use Rattle.prover.specs.Records.{out, leaves};
ghost use Rattle.prover.specs.Full.{message_given, ends_given, message_call, ends_call};

use super::answers::refuse;
use super::close::{answer_ends, answer_message};
use super::formed::well_formed;
use super::stage::stage_of;
use super::{Run, Step};
use pass::{Pass, lent};
use phase::{Next, folds, turns};
use refusal::Refusal;

// An answered message.
fn give_message(p: u32, run: Run, pass: Pass, f: &[u32], g: &[u32]) -> Step
    requires { run.round < 15 }
    ensures { out result f.now g.now ≡ message_given p run pass f.now g.now }
{
    let m = folds::message(p, run.start.rounds, run.round, run.next, f, g);
    answer_message(run, pass, m)
}

// Answered ends: fold n is one place.
fn give_ends(run: Run, pass: Pass, f: &[u32], g: &[u32]) -> Step
    requires { (1 ≤ length f.now) × (1 ≤ length g.now) }
    ensures { out result f.now g.now ≡ ends_given run pass f.now g.now }
{
    answer_ends(run, pass, f[0], g[0])
}

impl Run {
    // The message of the current fold.
    #[tactic(auto, using(crate::proofs::Branches::branches), unfolding(crate::specs::Full::message_call))]
    pub fn message(self, pass: Pass, f: &[u32], g: &[u32]) -> Step
        ensures { out result f.now g.now ≡ leaves self pass f.now g.now (message_call (modulus_of self.start) self pass f.now g.now) }
    {
        let p = item::modulus_of(self.start);
        let well = well_formed(p, self, pass);
        let true = turns::full_next(well, self.mode, Next::Message, self.next) else {
            return refuse(self, pass, Refusal::Order);
        };
        if let Err(refusal) = lent::both_good(p, stage_of(self), f, g) {
            return refuse(self, pass, refusal);
        }
        give_message(p, self, pass, f, g)
    }

    // The end values.
    #[tactic(auto, using(crate::proofs::Branches::branches), unfolding(crate::specs::Full::ends_call))]
    pub fn ends(self, pass: Pass, f: &[u32], g: &[u32]) -> Step
        ensures { out result f.now g.now ≡ leaves self pass f.now g.now (ends_call (modulus_of self.start) self pass f.now g.now) }
    {
        let p = item::modulus_of(self.start);
        let well = well_formed(p, self, pass);
        let true = turns::full_next(well, self.mode, Next::Ends, self.next) else {
            return refuse(self, pass, Refusal::Order);
        };
        if let Err(refusal) = lent::both_good(p, stage_of(self), f, g) {
            return refuse(self, pass, refusal);
        }
        give_ends(self, pass, f, g)
    }
}
