// Document 01's trip: readings -180, -175, 40; weights 10, 20, 5; challenges 2, 3; point 2.
use super::answers;
use super::calls::{challenged, closed, given, opened, opened_at};
use super::failure::Failure;
use prover::{Run, Step};
use std::io::{self, Write};
use vector::Message;
use verifier::Verifier;

const ITEMS: [(i32, u16); 3] = [(-180, 10), (-175, 20), (40, 5)];

const CHALLENGES: [u32; 2] = [2, 3];

const POINT: u32 = 2;

pub(crate) fn lines<W: Write>(out: &mut W) -> Result<(), Failure> {
    let [first_challenge, second_challenge] = CHALLENGES;
    let total = passed(opened(Run::start_plain(3, 1)));
    let first = passed(opened(total));
    let second = passed(opened(challenged(first, first_challenge)));
    let messages = [answers::message(&first)?, answers::message(&second)?];
    for (round, message) in messages.iter().enumerate() {
        let Message { even, cross, odd } = message;
        writeln!(out, "* message {round} {even} {cross} {odd}")?;
    }
    claims(out, total.run.total, &messages)?;
    let ended = passed(opened(challenged(second, second_challenge)));
    let (f, g) = answers::ends(&ended)?;
    writeln!(out, "* ends {f} {g}")?;
    let values = passed(opened_at(ended, POINT)).values;
    opening(out, 'f', &values[..6])?;
    opening(out, 'g', &values[6..12])?;
    Ok(())
}

// The items from the last down, and the close.
fn passed(opened: Step) -> Step {
    let mut step = opened;
    for &(reading, weight) in ITEMS.iter().rev() {
        step = given(step, reading, weight);
    }
    closed(step)
}

// The verifier's claim at its start and after each message of the run.
fn claims<W: Write>(out: &mut W, total: i64, messages: &[Message; 2]) -> io::Result<()> {
    let mut verifier = closed_with(total);
    writeln!(out, "* claim 0 {}", verifier.claim)?;
    for (round, message) in (1..3).zip(messages.iter()) {
        verifier = verifier
            .message(message.even, message.cross, message.odd)
            .verifier;
        writeln!(out, "* claim {round} {}", verifier.claim)?;
    }
    Ok(())
}

// A verifier that has the items, first to last, and the total.
fn closed_with(total: i64) -> Verifier {
    let mut verifier = Verifier::start_plain(3, 1, &CHALLENGES).verifier;
    for (reading, weight) in ITEMS {
        verifier = verifier.item(reading, weight).verifier;
    }
    verifier.close(total).verifier
}

// The values of one vector: three for each round.
fn opening<W: Write>(out: &mut W, vector: char, values: &[u32]) -> io::Result<()> {
    for (j, triple) in (1..3).zip(values.chunks_exact(3)) {
        if let [point, minus, square] = triple {
            writeln!(out, "* open {vector} {j} {point} {minus} {square}")?;
        }
    }
    Ok(())
}
