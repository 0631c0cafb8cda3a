// Document 01's program: proves the trip of trip.rvl with the challenges and the point of trip.rvc, and has the verifier judge it.
#![tactic(auto)]

mod arguments;
mod failure;
mod input;
mod modes;
mod proving;
mod report;
mod verifying;

use failure::Failure;
use proving::Session;
use report::Report;
use std::fs::Files;
use std::io;
use std::io::Write;

fn main(rt: HostRuntime) -> io::Result<()> {
    match arguments::read(&rt) {
        Ok(letters) => trip(&rt, &mut rt.stdout(), &letters),
        Err(usage) => writeln!(rt.stderr(), "{usage}"),
    }
}

// Each buffer is longer than the longest good file, so that no file is cut to a good one.
fn trip<R: Files, W: Write>(rt: &R, out: &mut W, letters: &[u8]) -> io::Result<()> {
    let mut log = [0u8; 24584];
    let log_size = input::read_file(rt, "trip.rvl", &mut log)?;
    let mut numbers = [0u8; 64];
    let numbers_size = input::read_file(rt, "trip.rvc", &mut numbers)?;
    match judge(&log[..log_size], &numbers[..numbers_size], letters) {
        Ok(report) => write!(out, "{report}"),
        Err(failure) => writeln!(out, "{failure}"),
    }
}

// The report is there only once the last call of the run is answered: a refused input prints its number alone.
fn judge(log: &[u8], numbers: &[u8], letters: &[u8]) -> Result<Report, Failure> {
    let head = input::check(log, numbers)?;
    let mut session = Session {
        log,
        numbers,
        letters,
        f: [0; 4096],
        g: [0; 4096],
    };
    let step = session.prove(head)?;
    Ok(Report {
        run: step.run,
        values: step.values,
        verdict: verifying::verify(&step.run, log, numbers),
    })
}
