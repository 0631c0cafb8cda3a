// Runs a list of calls of prover and verifier, and prints what each answers. A record of standard input is one call. The buffers are
// lent to the calls as a host would lend them.
#![tactic(auto)]

mod answers;
mod batches;
mod dump;
mod fault;
mod proving;
mod record;
mod verifying;

use fault::Fault;
use pass::Pass;
use prover::Run;
use records::Record;
use records::lists::Lists;
use records::proof::Proof;
use records::slots::Slots;
use std::io;
use std::io::Write;
use verifier::Verifier;

fn main(rt: HostRuntime) -> io::Result<()> {
    let mut held = Held {
        f: [0; 4096],
        g: [0; 4096],
        lists: Lists::new(),
        slots: Slots::new(),
        proof: Proof::new(),
        prover: None,
        verifier: None,
    };
    let mut input = rt.stdin();
    let mut out = rt.stdout();
    // A proved loop has to end, and nothing says that the input does: the count is one that no run uses up.
    for _ in 0..u64::MAX {
        let Some(r) = record::next(&mut input)? else {
            return Ok(());
        };
        match held.call(&mut out, r) {
            Ok(()) => {}
            Err(Fault::Io(error)) => return Err(error),
            Err(fault) => writeln!(out, "{fault}")?,
        }
    }
    Ok(())
}

// The two buffers, the lists, the slots and the proof file; at most one run with its pass, and at most one verifier.
#[derive(Clone, Copy)]
pub struct Held {
    pub f: [u32; 4096],
    pub g: [u32; 4096],
    pub lists: Lists,
    pub slots: Slots,
    pub proof: Proof,
    pub prover: Option<Prover>,
    pub verifier: Option<Verifier>,
}

#[derive(Clone, Copy)]
pub struct Prover {
    pub run: Run,
    pub pass: Pass,
}

impl Held {
    // Makes the call of a record, and prints what it answers.
    fn call<W: Write>(&mut self, out: &mut W, r: Record) -> Result<(), Fault> {
        match r.op {
            1..=4 | 41 => self.lists.keep(r, &mut self.f, &mut self.g)?,
            5 => dump::call(out, self, r.a)?,
            6..=7 => self.proof.change(r)?,
            8 => dump::proof(out, &self.proof)?,
            10..=12 | 62 => proving::start(out, self, r)?,
            13..=24 => proving::call(out, self, r)?,
            25 => proving::claim(out, self)?,
            26..=27 => proving::block(out, self, r)?,
            30..=32 => verifying::start(out, self, r)?,
            33..=40 | 42 => verifying::call(out, self, r)?,
            43..=44 => verifying::block(out, self, r)?,
            60..=61 => self.slots.fill(r)?,
            63 => batches::item(out, &self.slots, r)?,
            64 => batches::value(out, &self.slots, r)?,
            _ => return Err(Fault::from(records::Fault::Bad)),
        }
        Ok(())
    }
}
