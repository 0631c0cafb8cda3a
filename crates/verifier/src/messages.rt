// The claim, the messages and the verdict.
ghost use Rattle.std.specs.Prelude.{◌≡◌, ◌<◌};
ghost use Rattle.refusal.specs.Outcome.{answered};
ghost use Rattle.vector.specs.Slice.{message_in};
ghost use Rattle.verifier.specs.Records.{step_in, leaves, verdict_in};
ghost use Rattle.verifier.specs.Claims.{closes, reduced_message, hears, finds};

use super::{Reply, Step, Verdict, Verifier};
use claim::Finding;
use field::Field;
use vector::Message;

// The claim starts as the total.
#[tactic(auto, unfolding(crate::specs::Claims::closed_with))]
pub fn close(v: Verifier, claim: u32) -> Step
    ensures { step_in result ≡ leaves v (answered (closes v claim)) }
{
    let verifier = Verifier {
        closed: true,
        claim,
        ..v
    };
    Step {
        verifier,
        answer: Ok(Reply::Closed),
    }
}

// A message of field numbers.
pub fn reduced(p: u32, even: u32, cross: u32, odd: u32) -> Option<Message>
    ensures { result ≡ reduced_message p even cross odd }
{
    Some(Message {
        even: u32::from(Field::new_in(p, even)?),
        cross: u32::from(Field::new_in(p, cross)?),
        odd: u32::from(Field::new_in(p, odd)?),
    })
}

#[tactic(auto, unfolding(crate::specs::Claims::hears, crate::specs::Claims::passed_with, crate::specs::Claims::failed_now))]
pub(crate) fn hear(p: u32, v: Verifier, m: Message) -> Step
    requires { v.round < 15 }
    ensures { step_in result ≡ leaves v (answered (hears p v (message_in m))) }
{
    let c = v.challenges[v.round as usize];
    let Some(claim) = claim::hear(p, v.claim, c, m.even, m.cross, m.odd) else {
        return Step {
            verifier: Verifier { failed: true, ..v },
            answer: Ok(Reply::No(v.round)),
        };
    };
    let verifier = Verifier {
        claim,
        round: v.round + 1,
        ..v
    };
    Step {
        verifier,
        answer: Ok(Reply::Passed),
    }
}

#[tactic(auto, using(crate::proofs::Guards::splits), unfolding(crate::specs::Claims::finds))]
pub fn find(p: u32, v: Verifier) -> Verdict
    ensures { verdict_in result ≡ answered (finds p v) }
{
    match claim::find(
        p,
        v.start.rounds,
        v.failed,
        v.round,
        v.claim,
        v.fsum,
        v.gsum,
    ) {
        Finding::Yes => Verdict::Yes,
        Finding::No(k) => Verdict::No(k),
    }
}
