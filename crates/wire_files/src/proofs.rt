// Proof files, read and written.
use super::changed;
use lines::Refused;
use refusal::Refusal;
use std::io;
use std::io::Write;
use vector::Message;
use wire::proof::{Ends, Head, part_message, proof_ends, proof_round, read_proof, write_proof};

// The trip's proof: n 2, total -5100, two messages and the end values.
const PROOF: [u8; 42] = [
    82, 86, 80, 1, 0, 2, 20, 236, 255, 255, 191, 249, 255, 127, 25, 235, 255, 127, 83, 242, 255,
    127, 123, 152, 255, 127, 117, 253, 255, 127, 200, 0, 0, 0, 101, 254, 255, 127, 65, 0, 0, 0,
];

const MESSAGES: [u32; 45] = [
    2147482047, 2147478297, 2147480147, 2147457147, 2147482997, 200, 0, 0, 0, 0, 0, 0, 0, 0, 0, 0,
    0, 0, 0, 0, 0, 0, 0, 0, 0, 0, 0, 0, 0, 0, 0, 0, 0, 0, 0, 0, 0, 0, 0, 0, 0, 0, 0, 0, 0,
];

fn proof<W: Write>(out: &mut W, label: &str, file: &[u8]) -> io::Result<()> {
    match read_proof(file) {
        Ok(Head { rounds, total }) => writeln!(out, "{label}: {rounds} {total}"),
        Err(refusal) => writeln!(out, "{label}: {}", Refused(refusal)),
    }
}

fn round<W: Write>(out: &mut W, file: &[u8], i: u32) -> io::Result<()> {
    let part = proof_round(file, i);
    write!(out, "proof round {i}: {} bytes, ", part.len())?;
    match part_message(part) {
        Some(Message { even, cross, odd }) => writeln!(out, "message {even} {cross} {odd}"),
        None => writeln!(out, "nothing"),
    }
}

fn ends<W: Write>(out: &mut W, file: &[u8]) -> io::Result<()> {
    match proof_ends(file) {
        Some(Ends { f, g }) => writeln!(out, "proof ends: {f} {g}"),
        None => writeln!(out, "proof ends: nothing"),
    }
}

pub(crate) fn read<W: Write>(out: &mut W) -> io::Result<()> {
    proof(out, "proof", &PROOF)?;
    round(out, &PROOF, 0)?;
    round(out, &PROOF, 1)?;
    round(out, &PROOF, 2)?;
    round(out, &PROOF[..41], 0)?;
    ends(out, &PROOF)?;
    ends(out, &PROOF[..41])?;
    proof(out, "proof 9 bytes", &PROOF[..9])?;
    proof(out, "proof RVL", &changed(PROOF, 2, b'L'))?;
    proof(out, "proof version 2", &changed(PROOF, 3, 2))?;
    proof(out, "proof n 16", &changed(PROOF, 5, 16))?;
    proof(out, "proof n 3", &changed(PROOF, 5, 3))?;
    proof(out, "proof 41 bytes", &PROOF[..41])?;
    proof(out, "proof total 1090514964", &changed(PROOF, 9, 64))?;
    proof(out, "proof total -1073746924", &changed(PROOF, 9, 191))?;
    proof(out, "proof message over P", &changed(PROOF, 13, 128))?;
    proof(out, "proof end over P", &changed(PROOF, 41, 128))
}

fn answer<W: Write>(out: &mut W, label: &str, answer: Result<usize, Refusal>) -> io::Result<()> {
    match answer {
        Ok(size) => writeln!(out, "{label}: {size}"),
        Err(refusal) => writeln!(out, "{label}: {}", Refused(refusal)),
    }
}

// With the end g of 65; then the first bytes as a proof, and the byte after them.
fn write<W: Write>(out: &mut W, label: &str, rounds: u32, total: i64, f: u32) -> io::Result<()> {
    let mut file = [7u8; 48];
    answer(
        out,
        label,
        write_proof(rounds, total, MESSAGES, f, 65, &mut file),
    )?;
    again(out, &file)
}

fn again<W: Write>(out: &mut W, file: &[u8]) -> io::Result<()> {
    if let Some((bytes, rest)) = file.split_at_checked(42) {
        proof(out, "  read again", bytes)?;
        if let Some(after) = rest.first() {
            writeln!(out, "  byte after: {after}")?;
        }
    }
    Ok(())
}

fn write_short<W: Write>(out: &mut W) -> io::Result<()> {
    let mut file = [7u8; 41];
    answer(
        out,
        "write to 41 bytes",
        write_proof(2, -5100, MESSAGES, 2147483237, 65, &mut file),
    )
}

pub(crate) fn written<W: Write>(out: &mut W) -> io::Result<()> {
    write(out, "write", 2, -5100, 2147483237)?;
    write(out, "write n 16", 16, -5100, 2147483237)?;
    write(out, "write total 1073741823", 2, 1073741823, 2147483237)?;
    write(out, "write total 1073741824", 2, 1073741824, 2147483237)?;
    write(out, "write total -1073741823", 2, -1073741823, 2147483237)?;
    write(out, "write total -1073741824", 2, -1073741824, 2147483237)?;
    write(out, "write end P - 1", 2, -5100, 2147483646)?;
    write(out, "write end P", 2, -5100, 2147483647)?;
    write_short(out)
}
