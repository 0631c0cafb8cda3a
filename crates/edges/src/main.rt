// Document 01's edges, worked out by the proved calls: one line for each, marked * if it is in the starred table, else -; then n of every L.
#![tactic(auto)]

mod answers;
mod calls;
mod failure;
mod limits;
mod numbers;
mod rounds;
mod trip;

use failure::Failure;

fn main(rt: HostRuntime) -> Result<(), Failure> {
    let mut out = rt.stdout();
    trip::lines(&mut out)?;
    numbers::lines(&mut out)?;
    limits::lines(&mut out)?;
    rounds::lines(&mut out)?;
    Ok(())
}
