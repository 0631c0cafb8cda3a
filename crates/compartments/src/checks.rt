// Openings that the verifier judges, and starts that are refused.
use super::logs::{self, CHALLENGES, CHILLED, DRY, FROZEN, LOGS, POINT, SINGLE, Z};
use lines::Refused;
use prover::Reply;
use std::io::{self, Write};
use verifier::{Verdict, Verifier};

pub(crate) fn verdicts<W: Write>(out: &mut W, values: [u32; 6], own: [u32; 3]) -> io::Result<()> {
    verdict(out, "true values", values, own)?;
    let [first, _, third] = own;
    verdict(
        out,
        "another value of the second log",
        values,
        [first, 0, third],
    )?;
    let mut others = values;
    others[4] = 0;
    verdict(out, "another value at j 2", others, own)
}

fn verdict<W: Write>(out: &mut W, label: &str, values: [u32; 6], own: [u32; 3]) -> io::Result<()> {
    let verifier = Verifier::start_plain(4, 1, &CHALLENGES).verifier;
    match verifier.check_batch(LOGS, Z, POINT, &values, &own) {
        Verdict::Yes => writeln!(out, "{label}: yes"),
        Verdict::No(j) => writeln!(out, "{label}: no {j}"),
        Verdict::Refused(number) => writeln!(out, "{label}: refused {number}"),
    }
}

pub(crate) fn starts<W: Write>(out: &mut W) -> io::Result<()> {
    let logs: [&[u8]; 3] = [&FROZEN, &CHILLED, &DRY];
    start(out, "no logs", 0, logs, Z)?;
    start(out, "nine logs", 9, logs, Z)?;
    start(out, "a fourth log that is empty", 4, logs, Z)?;
    start(out, "n 2 and n 0", 2, [&FROZEN, &SINGLE, &SINGLE], 0)?;
    start(out, "n 0 twice", 2, [&SINGLE, &SINGLE, &SINGLE], 0)?;
    start(out, "z 0", LOGS, logs, 0)
}

fn start<W: Write>(
    out: &mut W,
    label: &str,
    count: u32,
    logs: [&[u8]; 3],
    z: u32,
) -> io::Result<()> {
    match logs::begin(count, logs, z).answer {
        Ok(Reply::Started) => writeln!(out, "{label}: started"),
        Ok(_) => writeln!(out, "{label}: none"),
        Err(refusal) => writeln!(out, "{label}: {}", Refused(refusal)),
    }
}
