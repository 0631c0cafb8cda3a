// What a start or a refusal hands back.
ghost use Rattle.std.specs.Prelude.{◌≡◌};
ghost use Rattle.refusal.specs.Refusal.{refused_by};
ghost use Rattle.verifier.specs.Records.{blank, step_in, leaves};
ghost use Rattle.verifier.specs.Starts.{fresh_verifier, starting};

use super::{Reply, Step, Verifier};
use item::Start;
use refusal::Refusal;

// A refusal hands the verifier back unchanged.
#[tactic(auto, using(crate::proofs::Branches::branches))]
pub fn refuse(v: Verifier, refusal: Refusal) -> Step
    ensures { step_in result ≡ leaves v (refused_by refusal) }
{
    Step {
        verifier: v,
        answer: Err(refusal),
    }
}

// Its pass is open, nothing is taken.
#[tactic(auto, unfolding(crate::specs::Starts::fresh_verifier))]
fn fresh(start: Start, challenges: [u32; 15]) -> Verifier
    ensures { result ≡ fresh_verifier start challenges }
{
    Verifier {
        start,
        challenges,
        closed: false,
        taken: 0,
        fsum: 0,
        gsum: 0,
        claim: 0,
        round: 0,
        failed: false,
    }
}

// The record beside a refused start: all zero.
#[tactic(auto, unfolding(crate::specs::Starts::fresh_verifier))]
pub fn not_started(refusal: Refusal) -> Step
    ensures { step_in result ≡ leaves blank (refused_by refusal) }
{
    refuse(fresh(item::starts::none(), [0u32; 15]), refusal)
}

// A fresh verifier, where the challenges fit the start (6).
#[tactic(auto, using(crate::proofs::Branches::branches))]
pub fn start(p: u32, start: Start, challenges: &[u32]) -> Step
    ensures { step_in result ≡ leaves blank (starting p start challenges.now) }
{
    let true = item::starts::list_fits(p, start.rounds, challenges) else {
        return not_started(Refusal::Argument);
    };
    let kept = vector::slice::take15(challenges, start.rounds as usize);
    Step {
        verifier: fresh(start, kept),
        answer: Ok(Reply::Started),
    }
}
