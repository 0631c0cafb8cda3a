// A van with three compartments: its logs opened as one batch in small mode, in full mode and with changes between, there and back, and
// checked.
#![tactic(auto)]

mod checks;
mod failure;
mod logs;
mod run;

use failure::Failure;
use lines::Numbers;
use run::Batch;
use std::io::{self, Write};

fn main(rt: HostRuntime) -> Result<(), Failure> {
    let mut out = rt.stdout();
    let items = [logs::item(0), logs::item(1), logs::item(2), logs::item(3)];
    line(&mut out, "combined", &items)?;
    let own = logs::values()?;
    line(&mut out, "values", &own)?;
    let values = Batch::begin().open_small()?;
    line(&mut out, "small", &values)?;
    let mut full = Batch::begin();
    full.change_to_full();
    line(&mut out, "full", &full.open_full()?)?;
    change_and_return(&mut out)?;
    checks::verdicts(&mut out, values, own)?;
    checks::starts(&mut out)?;
    Ok(())
}

// An opening in small mode, the change, one in full mode, the return, and one in small mode again.
fn change_and_return<W: Write>(out: &mut W) -> Result<(), Failure> {
    let mut batch = Batch::begin();
    line(out, "before the change", &batch.open_small()?)?;
    batch.change_to_full();
    line(out, "after the change", &batch.open_full()?)?;
    batch.return_to_small();
    line(out, "after the return", &batch.open_small()?)?;
    Ok(())
}

fn line<W: Write>(out: &mut W, label: &str, numbers: &[u32]) -> io::Result<()> {
    writeln!(out, "{label}{}", Numbers(numbers))
}
