// Readings and halves as field numbers, and n of L.
use super::answers;
use super::calls::{closed, given, opened};
use super::failure::Failure;
use super::rounds::rounds_in_run;
use field::Field;
use prover::{Run, Step};
use std::io::{self, Write};

pub(crate) fn lines<W: Write>(out: &mut W) -> Result<(), Failure> {
    reading(out, -1)?;
    half(out, Field::ONE)?;
    rounds(out, '*', 1)?;
    messages_of_one(out)?;
    rounds(out, '*', 2)?;
    rounds(out, '*', 3)?;
    rounds(out, '-', 32768)?;
    Ok(())
}

fn reading<W: Write>(out: &mut W, reading: i32) -> io::Result<()> {
    let number = u32::from(Field::from_reading(reading));
    writeln!(out, "* reading {reading} {number}")
}

fn half<W: Write>(out: &mut W, x: Field) -> io::Result<()> {
    writeln!(out, "* half {} {}", u32::from(x), u32::from(x.half()))
}

fn rounds<W: Write>(out: &mut W, mark: char, items: u32) -> io::Result<()> {
    writeln!(out, "{mark} rounds {items} {}", rounds_in_run(items))
}

// A run of one item: after its total the next pass answers the ends, and it has taken as many challenges as it gave messages.
fn messages_of_one<W: Write>(out: &mut W) -> Result<(), Failure> {
    let ended = passed(passed(Run::start_plain(1, 1)));
    answers::ends(&ended)?;
    writeln!(
        out,
        "* messages {} {}",
        ended.run.start.items, ended.run.round
    )?;
    Ok(())
}

fn passed(step: Step) -> Step {
    closed(given(opened(step), 7, 3))
}
