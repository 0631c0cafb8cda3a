// The prover's calls, each made as data.
use super::fault::Fault;
use super::{Held, Prover, answers, batches};
use dispatch::blocks::{fits, to_run_within};
use dispatch::named::call_of;
use dispatch::within::make_within;
use prover::{Reply, Run, Step};
use records::Record;
use std::io;
use std::io::Write;

// With the scratch list: twists, or a batch's challenges. A refused start leaves the run that there is.
pub(crate) fn start<W: Write>(out: &mut W, held: &mut Held, r: Record) -> io::Result<()> {
    let values = held.lists.numbers();
    let step = match r.op {
        10 => Run::start_plain(r.a, r.b),
        11 => Run::start_twisted(r.a, values),
        12 => Run::start_rule(r.a, r.b),
        _ => batches::start(&held.slots, r, values),
    };
    if let Ok(Reply::Started) = step.answer {
        held.prover = Some(left(&step));
    }
    answers::step(out, &step)
}

fn left(step: &Step) -> Prover {
    Prover {
        run: step.run,
        pass: step.pass,
    }
}

// A written proof sets the file's size.
pub(crate) fn call<W: Write>(out: &mut W, held: &mut Held, r: Record) -> Result<(), Fault> {
    let call = call_of(r).ok_or(records::Fault::Bad)?;
    let Some(Prover { run, pass }) = held.prover else {
        return Err(Fault::NoRun);
    };
    let step = make_within(
        run,
        pass,
        call,
        held.lists.flent,
        held.lists.glent,
        r.a as usize,
        &mut held.f,
        &mut held.g,
        &mut held.proof.bytes,
    );
    if let Ok(Reply::Written(size)) = step.answer {
        held.proof.size = size;
    }
    took(out, held, &step)
}

// The run's claim.
pub(crate) fn claim<W: Write>(out: &mut W, held: &Held) -> Result<(), Fault> {
    let Some(prover) = &held.prover else {
        return Err(Fault::NoRun);
    };
    writeln!(out, "claim {}", prover.run.claim)?;
    Ok(())
}

// A block of items.
pub(crate) fn block<W: Write>(out: &mut W, held: &mut Held, r: Record) -> Result<(), Fault> {
    if !fits(&held.lists, r) {
        return Err(Fault::from(records::Fault::Bad));
    }
    let Some(Prover { run, pass }) = held.prover else {
        return Err(Fault::NoRun);
    };
    let step = to_run_within(
        run,
        pass,
        &held.lists,
        &held.slots,
        r,
        &mut held.f,
        &mut held.g,
    );
    took(out, held, &step)
}

// Keeps the run that a call handed back, and prints what it answers.
fn took<W: Write>(out: &mut W, held: &mut Held, step: &Step) -> Result<(), Fault> {
    held.prover = Some(left(step));
    answers::step(out, step)?;
    Ok(())
}
