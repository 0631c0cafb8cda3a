// A whole run of the verifier, which is given the log, the challenges, and what the prover's run holds.
use super::input;
use prover::Run;
use verifier::{Verdict, Verifier};

// A run has at most so many.
pub(crate) const MOST_ROUNDS: u32 = 15;

pub(crate) fn verify(run: &Run, log: &[u8], numbers: &[u8]) -> Verdict {
    let mut verifier = start(run, numbers)
        .items(input::items_of(log))
        .verifier
        .close(run.total)
        .verifier;
    for (_, message) in (0..run.start.rounds).zip(run.messages.chunks_exact(3)) {
        if let &[even, cross, odd] = message {
            verifier = verifier.message(even, cross, odd).verifier;
        }
    }
    verifier.verdict()
}

fn start(run: &Run, numbers: &[u8]) -> Verifier {
    let start = run.start;
    let mut challenges = [0u32; 15];
    for (k, challenge) in (0..MOST_ROUNDS).zip(challenges.iter_mut()) {
        *challenge = input::number(numbers, k);
    }
    let rounds = start.rounds.min(MOST_ROUNDS) as usize;
    Verifier::start_plain(start.items, start.version, &challenges[..rounds]).verifier
}
