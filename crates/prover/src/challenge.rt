// A challenge: in small mode the run keeps it; in full mode both lent folds are folded too.
ghost use Rattle.std.specs.Prelude.{◌≡◌, ◌<◌};
ghost use Rattle.item.specs.Start.{modulus_of};
ghost use Rattle.vector.specs.Message.{next_claim};
ghost use Rattle.prover.specs.Records.{out, leaves};
ghost use Rattle.prover.specs.Challenge.{kept_message, kept_challenge, challenged, challenge_call};

use super::answers::{answered, refuse};
use super::formed::well_formed;
use super::stage::stage_of;
use super::{Reply, Run, Step};
use field::Field;
use pass::{Pass, lent};
use phase::{order, turns};
use refusal::Refusal;

// The value of the round's message at its challenge.
fn claim_at(p: u32, messages: [u32; 45], round: u32, c: u32) -> u32
    requires { round < 15 }
    ensures { result ≡ next_claim p (kept_message messages round) c }
{
    let at = 3 * (round as usize);
    claim::next_claim(p, c, messages[at], messages[at + 1], messages[at + 2])
}

fn keep_challenge(p: u32, run: Run, c: u32) -> Run
    requires { run.round < 15 }
    ensures { result ≡ kept_challenge p run c }
{
    let mut challenges = run.challenges;
    challenges[run.round as usize] = c;
    let round = run.round + 1;
    Run {
        challenges,
        claim: claim_at(p, run.messages, run.round, c),
        round,
        next: order::round_or_ends(round, run.start.rounds),
        ..run
    }
}

// A challenge whose number is good.
fn take(p: u32, run: Run, pass: Pass, c: u32, f: &mut [u32], g: &mut [u32]) -> Step
    requires { run.round < 15 }
    ensures { out result f.new g.new ≡ leaves run pass f.old g.old (challenged p run pass c f.old g.old run.mode) }
{
    if let Err(refusal) = lent::challenge(p, stage_of(run), run.mode, c, f, g) {
        return refuse(run, pass, refusal);
    }
    answered(keep_challenge(p, run, c), pass, Reply::Challenged)
}

impl Run {
    // The buffers matter in full mode only.
    #[tactic(auto, using(crate::proofs::Branches::branches), unfolding(crate::specs::Challenge::challenge_call))]
    pub fn challenge(self, pass: Pass, c: u32, f: &mut [u32], g: &mut [u32]) -> Step
        ensures { out result f.new g.new ≡ leaves self pass f.old g.old (challenge_call (modulus_of self.start) self pass c f.old g.old) }
    {
        let p = item::modulus_of(self.start);
        let well = well_formed(p, self, pass);
        let true = turns::challenge(well, self.next) else {
            return refuse(self, pass, Refusal::Order);
        };
        let Some(number) = Field::nonzero_in(p, c) else {
            return refuse(self, pass, Refusal::Argument);
        };
        take(p, self, pass, u32::from(number), f, g)
    }
}
