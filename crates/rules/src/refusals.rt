// Products and claims that are refused, each beside one that is not.
ghost use Rattle.std.specs.Prelude.{◌<◌, ◌≤◌};

use super::rule_set::{A, ROUNDS, V, Z};
use lines::{Numbers, Refused};
use std::io::{self, Write};

const P: u32 = 2147483647;

pub(crate) fn lines<W: Write>(out: &mut W) -> io::Result<()> {
    products(out)?;
    claims(out)
}

fn products<W: Write>(out: &mut W) -> io::Result<()> {
    product(out, "product into 5 places", &A, &Z, 5)?;
    damaged(out, "mark RVL", 2, b'L')?;
    damaged(out, "n 16", 5, 16)?;
    damaged(out, "row 4", 24, 4)?;
    damaged(out, "column falls", 34, 1)?;
    damaged(out, "value 0", 36, 0)?;
    product(out, "vector of 3", &A, &Z[..3], 5)?;
    product(out, "vector with P", &A, &[1, 3, 9, P], 5)?;
    product(out, "into 3 places", &A, &Z, 3)
}

// A with one byte changed.
fn damaged<W: Write>(out: &mut W, label: &str, at: usize, byte: u8) -> io::Result<()>
    requires { at < 40 }
{
    let mut file = A;
    file[at] = byte;
    product(out, label, &file, &Z, 5)
}

// A product into so many of five places, and what it leaves in all of them.
fn product<W: Write>(
    out: &mut W,
    label: &str,
    file: &[u8],
    z: &[u32],
    lent: usize,
) -> io::Result<()>
    requires { lent ≤ 5 }
{
    let mut places = [7u32; 5];
    match r1cs::product(file, z, &mut places[..lent]) {
        Ok(n) => writeln!(out, "{label}: n {n}, left{}", Numbers(&places)),
        Err(refusal) => writeln!(
            out,
            "{label}: {}, left{}",
            Refused(refusal),
            Numbers(&places)
        ),
    }
}

fn claims<W: Write>(out: &mut W) -> io::Result<()> {
    let cz = [9, 27, 19, 0];
    claim(out, "claim n 16", &cz, 16, V)?;
    claim(out, "claim v 0", &cz, ROUNDS, 0)?;
    claim(out, "claim v P", &cz, ROUNDS, P)?;
    claim(out, "claim of 3", &cz[..3], ROUNDS, V)?;
    claim(out, "claim with P", &[9, 27, 19, P], ROUNDS, V)?;
    claim(out, "claim", &cz, ROUNDS, V)
}

fn claim<W: Write>(out: &mut W, label: &str, cz: &[u32], rounds: u32, v: u32) -> io::Result<()> {
    match r1cs::claim(cz, rounds, v) {
        Ok(x) => writeln!(out, "{label}: {x}"),
        Err(refusal) => writeln!(out, "{label}: {}", Refused(refusal)),
    }
}
