// The edges of a weight and of a plain total.
use super::answers::{self, Outcome};
use super::calls::{closed, given, opened};
use prover::Run;
use std::io::{self, Write};
use verifier::Verifier;

pub(crate) fn lines<W: Write>(out: &mut W) -> io::Result<()> {
    weight(out, 1440)?;
    weight(out, 1441)?;
    computed(out, 32767, 0)?;
    computed(out, 32767, 1)?;
    computed(out, -32767, 0)?;
    computed(out, -32767, -1)?;
    claimed(out, 1073741823)?;
    claimed(out, 1073741824)?;
    claimed(out, -1073741823)?;
    claimed(out, -1073741824)
}

fn weight<W: Write>(out: &mut W, weight: u16) -> io::Result<()> {
    let step = given(opened(Run::start_plain(1, 1)), 1, weight);
    let outcome = Outcome(answers::taken(&step));
    writeln!(out, "- weight {weight} {outcome}")
}

// 32,767 times 32,769 minutes is the limit; one item more goes past it.
fn computed<W: Write>(out: &mut W, reading: i32, last: i32) -> io::Result<()> {
    let mut step = opened(Run::start_plain(24, 1));
    step = given(step, last, 1);
    step = given(step, reading, 1089);
    for _ in 0..22 {
        step = given(step, reading, 1440);
    }
    let outcome = Outcome(answers::taken(&closed(step)));
    writeln!(out, "- total-computed {} {outcome}", step.pass.total)
}

fn claimed<W: Write>(out: &mut W, total: i64) -> io::Result<()> {
    let verifier = Verifier::start_plain(1, 1, &[])
        .verifier
        .item(0, 0)
        .verifier;
    let outcome = Outcome(answers::closed(&verifier.close(total)));
    writeln!(out, "- total-claimed {total} {outcome}")
}
