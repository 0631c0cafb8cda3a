// Dumps of stacks and buffers, op 5, and of the proof file, op 8.
use super::fault::Fault;
use super::{Held, Prover};
use lines::{Hex, Numbers};
use phase::{Kind, Next};
use records::parts::first;
use records::proof::Proof;
use std::io;
use std::io::Write;

pub(crate) fn call<W: Write>(out: &mut W, held: &Held, a: u32) -> Result<(), Fault> {
    if a > 4096 {
        return Err(Fault::from(records::Fault::Bad));
    }
    if let Some(prover) = &held.prover {
        stacks(out, prover)?;
    }
    let n = a as usize;
    writeln!(out, "f-buffer{}", Numbers(first(n, &held.f)))?;
    writeln!(out, "g-buffer{}", Numbers(first(n, &held.g)))?;
    Ok(())
}

// Printed while a small pass for a round, the ends or the openings is open.
fn stacks<W: Write>(out: &mut W, prover: &Prover) -> io::Result<()> {
    let pass = &prover.pass;
    if has_stacks(pass.kind, prover.run.next) {
        stack(out, "f-stack", &pass.flevels, &pass.fvalues, pass.fcount)?;
        stack(out, "g-stack", &pass.glevels, &pass.gvalues, pass.gcount)?;
    }
    Ok(())
}

fn has_stacks(kind: Kind, next: Next) -> bool {
    matches!(kind, Kind::Asked) && matches!(next, Next::Message | Next::Ends | Next::Openings)
}

// Bottom first.
fn stack<W: Write>(
    out: &mut W,
    label: &str,
    levels: &[u32; 16],
    values: &[u32; 16],
    count: usize,
) -> io::Result<()> {
    write!(out, "{label} {count}")?;
    for (level, value) in levels.iter().zip(values).take(count) {
        write!(out, " {level}:{value}")?;
    }
    writeln!(out)
}

pub(crate) fn proof<W: Write>(out: &mut W, proof: &Proof) -> io::Result<()> {
    let bytes = first(proof.size, &proof.bytes);
    writeln!(out, "proof {} {}", bytes.len(), Hex(bytes))
}
