// What the program prints of a trip: the run that gave its ends, the values of its opening, and the verdict.
use super::failure::Failure;
use super::verifying::MOST_ROUNDS;
use lines::Numbers;
use prover::Run;
use std::fmt::{self, Display, Formatter};
use verifier::Verdict;

#[derive(Clone, Copy)]
pub(crate) struct Report {
    pub(crate) run: Run,
    pub(crate) values: [u32; 90],
    pub(crate) verdict: Verdict,
}

impl Display for Report {
    fn fmt<W: fmt::Write>(&self, f: &mut Formatter<W>) -> fmt::Result {
        let run = &self.run;
        let n = run.start.rounds.min(MOST_ROUNDS) as usize;
        writeln!(f, "total {}", run.total)?;
        for (round, message) in (0..MOST_ROUNDS).zip(run.messages[..3 * n].chunks_exact(3)) {
            writeln!(f, "round {round}{}", Numbers(message))?;
        }
        writeln!(f, "ends {} {}", run.fend, run.gend)?;
        opening(f, 'f', &self.values[..3 * n])?;
        opening(f, 'g', &self.values[3 * n..6 * n])?;
        match self.verdict {
            Verdict::Yes => writeln!(f, "accepted"),
            Verdict::No(_) | Verdict::Refused(_) => writeln!(f, "{}", Failure::Rejected),
        }
    }
}

// The values of one vector, three for each round.
fn opening<W: fmt::Write>(f: &mut Formatter<W>, vector: char, values: &[u32]) -> fmt::Result {
    for (j, triple) in (1..16).zip(values.chunks_exact(3)) {
        writeln!(f, "open {vector} {j}{}", Numbers(triple))?;
    }
    Ok(())
}
