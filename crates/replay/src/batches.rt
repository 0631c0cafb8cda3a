// Batches of logs: ops 62 to 64. All eight slots are handed in.
use super::fault::Fault;
use batch::{combined_item, log_value, start_batch};
use prover::Step;
use records::Record;
use records::slots::Slots;
use std::io::Write;

pub(crate) fn start(s: &Slots, r: Record, challenges: &[u32]) -> Step {
    start_batch(
        r.a,
        s.slot(0),
        s.slot(1),
        s.slot(2),
        s.slot(3),
        s.slot(4),
        s.slot(5),
        s.slot(6),
        s.slot(7),
        r.b,
        challenges,
    )
}

pub(crate) fn item<W: Write>(out: &mut W, s: &Slots, r: Record) -> Result<(), Fault> {
    let number = combined_item(
        r.a,
        s.slot(0),
        s.slot(1),
        s.slot(2),
        s.slot(3),
        s.slot(4),
        s.slot(5),
        s.slot(6),
        s.slot(7),
        r.b,
        r.c,
    );
    writeln!(out, "number {number}")?;
    Ok(())
}

pub(crate) fn value<W: Write>(out: &mut W, s: &Slots, r: Record) -> Result<(), Fault> {
    if r.a > 7 {
        return Err(Fault::from(records::Fault::Bad));
    }
    match log_value(s.slot(r.a), r.b) {
        Ok(value) => writeln!(out, "value {value}")?,
        Err(refusal) => writeln!(out, "{refusal}")?,
    }
    Ok(())
}
