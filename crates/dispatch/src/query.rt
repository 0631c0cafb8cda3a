// Makes a call of a verifier.
ghost use Rattle.std.specs.Prelude.{◌≡◌};
ghost use Rattle.item.specs.Start.{modulus_of};
ghost use Rattle.verifier.specs.Records.{step_in, leaves, verdict_in, opened_in};
ghost use Rattle.verifier.specs.Calls.{give};
ghost use Rattle.calls.specs.QueryStep.{saying, replying, finds, opens, ask};
ghost use Rattle.dispatch.specs.Told.{heard_in};

use calls::query::Query;
use item::Given;
use refusal::Refusal;
use verifier::{Opened, Reply, Step, Verdict, Verifier};

// What a call says: a reply or its refusal, the verdict, or the verdict on an opening.
#[derive(Clone, Copy, Debug, PartialEq, Eq)]
pub enum Told {
    Answer(Result<Reply, Refusal>),
    Verdict(Verdict),
    Opened(Opened),
}

// What a call hands back.
#[derive(Clone, Copy, Debug, PartialEq, Eq)]
pub struct Heard {
    pub verifier: Verifier,
    pub told: Told,
}

// What a method of the verifier handed back, as a call that is given as data does.
pub fn stepped(step: Step) -> Heard
    ensures { heard_in result ≡ replying (step_in step) }
{
    Heard {
        verifier: step.verifier,
        told: Told::Answer(step.answer),
    }
}

fn judged(verifier: Verifier, verdict: Verdict) -> Heard
    ensures { heard_in result ≡ saying finds verifier (verdict_in verdict) }
{
    Heard {
        verifier,
        told: Told::Verdict(verdict),
    }
}

fn opened(verifier: Verifier, opened: Opened) -> Heard
    ensures { heard_in result ≡ saying opens verifier (opened_in opened) }
{
    Heard {
        verifier,
        told: Told::Opened(opened),
    }
}

// An item of either kind of run.
fn give(verifier: Verifier, given: Given) -> Step
    ensures { step_in result ≡ leaves verifier (give (modulus_of verifier.start) verifier given) }
{
    match given {
        Given::Reading(reading, weight) => verifier.item(reading, weight),
        Given::Numbers(a, b) => verifier.field_item(a, b),
    }
}

// What each call is lent beside its numbers: the file, the opening values and the logs' values, which may be empty where it has no use
// for them.
#[tactic(auto, unfolding(calls::specs::QueryStep::ask))]
pub fn ask(verifier: Verifier, query: Query, file: &[u8], values: &[u32], logs: &[u32]) -> Heard
    ensures { heard_in result ≡ ask (modulus_of verifier.start) verifier query (record { file = file.now; values = values.now; logs = logs.now }) }
{
    match query {
        Query::Give(given) => stepped(give(verifier, given)),
        Query::Close(total) => stepped(verifier.close(total)),
        Query::CloseClaim(claim) => stepped(verifier.close_claim(claim)),
        Query::Message(even, cross, odd) => stepped(verifier.message(even, cross, odd)),
        Query::Verdict => judged(verifier, verifier.verdict()),
        Query::Proof => {
            let given = verifier.proof(file);
            judged(given.verifier, given.verdict)
        }
        Query::CheckOpening(point) => opened(verifier, verifier.check_opening(point, values)),
        Query::CheckBatch(count, z, point) => judged(
            verifier,
            verifier.check_batch(count, z, point, values, logs),
        ),
    }
}
