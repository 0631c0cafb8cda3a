// What a call answers, as a line.
use dispatch::query::Told;
use lines::Numbers;
use prover::{Reply, Step};
use records::parts::first;
use std::io;
use std::io::Write;
use verifier::{Opened, Verdict};

// A prover's answer; an opening's values stand beside it.
pub(crate) fn step<W: Write>(out: &mut W, step: &Step) -> io::Result<()> {
    match step.answer {
        Ok(Reply::Started) => writeln!(out, "started"),
        Ok(Reply::Opened) => writeln!(out, "opened"),
        Ok(Reply::Taken) => writeln!(out, "taken"),
        Ok(Reply::Total(total)) => writeln!(out, "total {total}"),
        Ok(Reply::FieldTotal(total)) => writeln!(out, "total {total}"),
        Ok(Reply::Message(even, cross, odd)) => writeln!(out, "message {even} {cross} {odd}"),
        Ok(Reply::Challenged) => writeln!(out, "challenged"),
        Ok(Reply::Ends(f, g)) => writeln!(out, "ends {f} {g}"),
        Ok(Reply::Opening) => opening(out, step.run.start.rounds, &step.values),
        Ok(Reply::Changed) => writeln!(out, "changed"),
        Ok(Reply::Written(size)) => writeln!(out, "written {size}"),
        Err(refusal) => writeln!(out, "{refusal}"),
    }
}

// The first 6n of the values.
fn opening<W: Write>(out: &mut W, rounds: u32, values: &[u32; 90]) -> io::Result<()> {
    let count = (rounds as usize).saturating_mul(6);
    writeln!(out, "opening{}", Numbers(first(count, values)))
}

// A verifier's answer.
pub(crate) fn told<W: Write>(out: &mut W, told: Told) -> io::Result<()> {
    match told {
        Told::Answer(Ok(reply)) => replied(out, reply),
        Told::Answer(Err(refusal)) => writeln!(out, "{refusal}"),
        Told::Verdict(verdict) => judged(out, verdict),
        Told::Opened(verdict) => opened(out, verdict),
    }
}

fn replied<W: Write>(out: &mut W, reply: verifier::Reply) -> io::Result<()> {
    match reply {
        verifier::Reply::Started => writeln!(out, "started"),
        verifier::Reply::Taken => writeln!(out, "taken"),
        verifier::Reply::Closed => writeln!(out, "closed"),
        verifier::Reply::Passed => writeln!(out, "passed"),
        verifier::Reply::No(round) => writeln!(out, "no {round}"),
    }
}

fn judged<W: Write>(out: &mut W, verdict: Verdict) -> io::Result<()> {
    match verdict {
        Verdict::Yes => writeln!(out, "yes"),
        Verdict::No(round) => writeln!(out, "no {round}"),
        Verdict::Refused(number) => writeln!(out, "refused {number}"),
    }
}

fn opened<W: Write>(out: &mut W, verdict: Opened) -> io::Result<()> {
    match verdict {
        Opened::Yes => writeln!(out, "yes"),
        Opened::NoF(j) => writeln!(out, "no f {j}"),
        Opened::NoG(j) => writeln!(out, "no g {j}"),
        Opened::Refused(number) => writeln!(out, "refused {number}"),
    }
}
