// The calls of the rule check: ops 58 and 59.
use records::lists::Lists;
use records::parts::within;
use std::io;
use std::io::Write;

// Of the matrix in the file with the scratch list, into the lent places of f.
pub(crate) fn product<W: Write>(
    out: &mut W,
    file: &[u8],
    l: &Lists,
    f: &mut [u32],
) -> io::Result<()> {
    let n = within(l.flent, f);
    match r1cs::product(file, l.numbers(), &mut f[..n]) {
        Ok(_rounds) => writeln!(out, "product"),
        Err(refusal) => writeln!(out, "{refusal}"),
    }
}

pub(crate) fn claim<W: Write>(out: &mut W, l: &Lists, rounds: u32, v: u32) -> io::Result<()> {
    match r1cs::claim(l.numbers(), rounds, v) {
        Ok(claim) => writeln!(out, "claim {claim}"),
        Err(refusal) => writeln!(out, "{refusal}"),
    }
}
