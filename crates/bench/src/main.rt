// Repeats one phase of a run or of a verifier over a log made by a formula, and prints a sum of all that it answers: bench/hand.rs is the
// same by hand. Standard input is one record: the phase (0 small, 1 full, 2 verify), the items, the repeats.
#![tactic(auto)]

mod log;
mod proving;
mod verifying;

use proving::Session;
use records::Record;
use records::parts::first;
use std::io;
use std::io::{ErrorKind, Read, Write};

fn main(rt: HostRuntime) -> io::Result<()> {
    let mut out = rt.stdout();
    let mut bytes = [0u8; 16];
    match rt.stdin().read_exact(&mut bytes) {
        Ok(()) => {}
        Err(e) if e.kind() == ErrorKind::UnexpectedEof => return Ok(()),
        Err(e) => return Err(e),
    }
    let mut block = [0u8; 131072];
    let mut f = [0u32; 32768];
    let mut g = [0u32; 32768];
    bench(
        &mut out,
        records::decode(&bytes),
        &mut block,
        &mut f,
        &mut g,
    )
}

fn bench<W: Write>(
    out: &mut W,
    r: Record,
    block: &mut [u8],
    f: &mut [u32],
    g: &mut [u32],
) -> io::Result<()> {
    log::make(block, r.a);
    let sum = repeats(r, block, f, g);
    writeln!(out, "{sum}")
}

fn repeats(r: Record, block: &mut [u8], f: &mut [u32], g: &mut [u32]) -> u64 {
    (0..r.b).rev().fold(0, |sum: u64, turn| {
        sum.wrapping_add(repeat(r, turn, block, f, g))
    })
}

// The log differs from turn to turn, so that nothing can be kept.
fn repeat(r: Record, turn: u32, block: &mut [u8], f: &mut [u32], g: &mut [u32]) -> u64 {
    log::mark(block, turn);
    phase(r.op, r.a, first(4 * (r.a as usize), block), f, g)
}

fn phase(kind: u32, items: u32, block: &[u8], f: &mut [u32], g: &mut [u32]) -> u64 {
    if kind > 1 {
        return verifying::end_values(items, block);
    }
    let mut session = Session {
        block,
        full: kind == 1,
        f,
        g,
    };
    session.prove(items)
}
