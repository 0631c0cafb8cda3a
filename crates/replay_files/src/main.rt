// Runs a list of calls on files and rules, and prints what each answers. A record of standard input is one call. The buffers are lent
// to the calls as a host would lend them.
#![tactic(auto)]

mod fault;
mod files;
mod record;
mod rules;

use arrayvec::ArrayVec;
use fault::Fault;
use lines::Numbers;
use records::Record;
use records::lists::Lists;
use records::parts::first;
use std::io;
use std::io::Write;

fn main(rt: HostRuntime) -> io::Result<()> {
    let mut held = Held {
        f: [0; 4096],
        g: [0; 4096],
        lists: Lists::new(),
        file: ArrayVec::new(),
    };
    let mut input = rt.stdin();
    let mut out = rt.stdout();
    // A proved loop has to end, and nothing says that the input does: the count is one that no run uses up.
    for _ in 0..u64::MAX {
        let Some(r) = record::next(&mut input)? else {
            return Ok(());
        };
        match held.call(&mut out, r) {
            Ok(()) => {}
            Err(Fault::Io(error)) => return Err(error),
            Err(fault) => writeln!(out, "{fault}")?,
        }
    }
    Ok(())
}

// The two buffers, the lists and the file.
#[derive(Drop)]
pub struct Held {
    pub f: [u32; 4096],
    pub g: [u32; 4096],
    pub lists: Lists,
    pub file: ArrayVec<u8, 1024>,
}

impl Held {
    // Makes the call of a record, and prints what it answers.
    fn call<W: Write>(&mut self, out: &mut W, r: Record) -> Result<(), Fault> {
        match r.op {
            1..=4 => self.lists.keep(r, &mut self.f, &mut self.g)?,
            5 => self.dump(out, r.a)?,
            50 => self.file.clear(),
            51 => self.append(r.a)?,
            52 => files::log(out, self.file.as_slice())?,
            53 => files::log_item(out, self.file.as_slice(), r.a)?,
            54 => files::proof(out, self.file.as_slice())?,
            55 => files::proof_round(out, self.file.as_slice(), r.a)?,
            56 => files::matrix(out, self.file.as_slice())?,
            57 => files::matrix_entry(out, self.file.as_slice(), r.a)?,
            58 => rules::product(out, self.file.as_slice(), &self.lists, &mut self.f)?,
            59 => rules::claim(out, &self.lists, r.a, r.b)?,
            _ => return Err(Fault::from(records::Fault::Bad)),
        }
        Ok(())
    }
}

impl Held {
    fn dump<W: Write>(&self, out: &mut W, a: u32) -> Result<(), Fault> {
        if a > 4096 {
            return Err(Fault::from(records::Fault::Bad));
        }
        let n = a as usize;
        writeln!(out, "f-buffer{}", Numbers(first(n, &self.f)))?;
        writeln!(out, "g-buffer{}", Numbers(first(n, &self.g)))?;
        Ok(())
    }

    fn append(&mut self, byte: u32) -> Result<(), Fault> {
        let byte = u8::try_from(byte).map_err(|_| records::Fault::Bad)?;
        self.file.try_push(byte).map_err(|_| records::Fault::Full)?;
        Ok(())
    }
}
