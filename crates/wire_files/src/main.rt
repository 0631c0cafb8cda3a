// Good and damaged files of each kind: one line for each, with what the call answers.
#![tactic(auto)]

mod logs;
mod matrices;
mod proofs;

use std::io;

fn main(rt: HostRuntime) -> io::Result<()> {
    let mut out = rt.stdout();
    logs::coarse(&mut out)?;
    logs::fine(&mut out)?;
    proofs::read(&mut out)?;
    proofs::written(&mut out)?;
    matrices::read(&mut out)
}

// A good file with one byte changed.
fn changed<const N: usize>(mut file: [u8; N], at: usize, byte: u8) -> [u8; N] {
    if let Some(place) = file.get_mut(at) {
        *place = byte;
    }
    file
}
