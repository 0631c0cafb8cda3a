// A rule set checked: the prover's run, and the verifier's with the claim in place of the total.
use super::answers;
use super::failure::Failure;
use super::rule_set::{A, B, ROUNDS, V, Z};
use lines::Numbers;
use prover::{Run, Step};
use refusal::Refusal;
use std::fmt::{self, Display, Formatter};
use std::io::Write;
use vector::Message;
use verifier::{Verdict, Verifier};

const CHALLENGES: [u32; 2] = [2, 3];

// What the two sides say to each other, and the verdict.
#[derive(Clone, Copy)]
struct Exchange {
    total: u32,
    claim: u32,
    messages: [Message; 2],
    verdict: Verdict,
}

// The rule set whose third matrix has this file.
pub(crate) fn lines<W: Write>(out: &mut W, c: &[u8]) -> Result<(), Failure> {
    let az = multiply(&A)?;
    let bz = multiply(&B)?;
    let cz = multiply(c)?;
    writeln!(out, "Az{}", Numbers(&az))?;
    writeln!(out, "Bz{}", Numbers(&bz))?;
    writeln!(out, "Cz{}", Numbers(&cz))?;
    let exchange = check(&az, &bz, &cz)?;
    write!(out, "{exchange}")?;
    Ok(())
}

// The product of a file and z.
fn multiply(file: &[u8]) -> Result<[u32; 4], Refusal> {
    let mut places = [0; 4];
    r1cs::product(file, &Z, &mut places)?;
    Ok(places)
}

fn check(az: &[u32; 4], bz: &[u32; 4], cz: &[u32; 4]) -> Result<Exchange, Failure> {
    let [first_challenge, _] = CHALLENGES;
    let closed = passed(Run::start_rule(ROUNDS, V), az, bz);
    let total = answers::total(&closed)?;
    let claim = r1cs::claim(cz, ROUNDS, V)?;
    let first = passed(closed, az, bz);
    let second = passed(challenged(first, first_challenge), az, bz);
    let messages = [answers::message(&first)?, answers::message(&second)?];
    Ok(Exchange {
        total,
        claim,
        messages,
        verdict: verdict(az, bz, claim, &messages),
    })
}

// A small pass, from the last item down.
fn passed(step: Step, az: &[u32; 4], bz: &[u32; 4]) -> Step {
    let mut step = step.run.open_pass(step.pass);
    for (&a, &b) in az.iter().zip(bz.iter()).rev() {
        step = step.run.field_item(step.pass, a, b, &mut [], &mut []);
    }
    step.run.close(step.pass)
}

fn challenged(step: Step, challenge: u32) -> Step {
    step.run.challenge(step.pass, challenge, &mut [], &mut [])
}

// Of a verifier that has the items, first to last, and hears the messages.
fn verdict(az: &[u32; 4], bz: &[u32; 4], claim: u32, messages: &[Message; 2]) -> Verdict {
    let mut verifier = Verifier::start_rule(ROUNDS, V, &CHALLENGES).verifier;
    for (&a, &b) in az.iter().zip(bz.iter()) {
        verifier = verifier.field_item(a, b).verifier;
    }
    verifier = verifier.close_claim(claim).verifier;
    for message in messages {
        verifier = verifier
            .message(message.even, message.cross, message.odd)
            .verifier;
    }
    verifier.verdict()
}

impl Display for Exchange {
    fn fmt<W: fmt::Write>(&self, f: &mut Formatter<W>) -> fmt::Result {
        writeln!(f, "total {}", self.total)?;
        writeln!(f, "claim {}", self.claim)?;
        for (round, message) in self.messages.iter().enumerate() {
            writeln!(
                f,
                "round {round} {} {} {}",
                message.even, message.cross, message.odd
            )?;
        }
        match self.verdict {
            Verdict::Yes => writeln!(f, "verdict yes"),
            Verdict::No(round) => writeln!(f, "verdict no {round}"),
            Verdict::Refused(number) => writeln!(f, "verdict refused {number}"),
        }
    }
}
