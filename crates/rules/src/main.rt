// A rule set of three rules on four numbers, multiplied out and checked: once where it holds, once with a row that fails; then refusals.
#![tactic(auto)]

mod answers;
mod checking;
mod failure;
mod refusals;
mod rule_set;

use failure::Failure;
use std::io::Write;

fn main(rt: HostRuntime) -> Result<(), Failure> {
    let mut out = rt.stdout();
    writeln!(out, "rules that hold")?;
    checking::lines(&mut out, &rule_set::C)?;
    writeln!(out, "a row that fails")?;
    checking::lines(&mut out, &rule_set::FAILING_C)?;
    writeln!(out, "refusals")?;
    refusals::lines(&mut out)?;
    Ok(())
}
