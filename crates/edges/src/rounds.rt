// n of every L from 1 to 32,768: a line for each stretch of equal n, with its first and its last L.
use prover::Run;
use std::io::{self, Write};

pub(crate) fn lines<W: Write>(out: &mut W) -> io::Result<()> {
    let mut first = 1;
    let mut rounds = rounds_in_run(first);
    for items in 2..=refusal::MAX_ITEMS {
        let next = rounds_in_run(items);
        if next != rounds {
            line(out, first, items - 1, rounds)?;
            first = items;
            rounds = next;
        }
    }
    line(out, first, refusal::MAX_ITEMS, rounds)
}

fn line<W: Write>(out: &mut W, first: u32, last: u32, rounds: u32) -> io::Result<()> {
    writeln!(out, "- rounds-all {first} {last} {rounds}")
}

// As a run of L items has it.
pub(crate) fn rounds_in_run(items: u32) -> u32 {
    Run::start_plain(items, 1).run.start.rounds
}
