// The proof file.
ghost use Rattle.std.specs.Prelude.{◌≡◌};
ghost use Rattle.records.specs.Proof.{no_proof, saying, writes, resizes, changes};

use super::{Fault, Record};

// Its length stands beside its bytes, since an op changes either without the other: bytes past the length are kept.
#[derive(Clone, Copy)]
pub struct Proof {
    pub bytes: [u8; 256],
    pub size: usize,
}

impl Proof {
    pub fn new() -> Proof
        ensures { result ≡ no_proof }
    {
        Proof {
            bytes: [0; 256],
            size: 0,
        }
    }

    // Ops 6 and 7.
    pub fn change(&mut self, r: Record) -> Result<(), Fault>
        ensures { saying self.new result ≡ changes self.old r }
    {
        match r.op {
            6 => self.write(r.a, r.b),
            7 => self.resize(r.a),
            _ => Err(Fault::Bad),
        }
    }

    fn write(&mut self, at: u32, byte: u32) -> Result<(), Fault>
        ensures { saying self.new result ≡ writes self.old at byte }
    {
        if at >= 256 || byte > 255 {
            return Err(Fault::Bad);
        }
        self.bytes[at as usize] = byte as u8;
        Ok(())
    }

    fn resize(&mut self, size: u32) -> Result<(), Fault>
        ensures { saying self.new result ≡ resizes self.old size }
    {
        if size > 256 {
            return Err(Fault::Bad);
        }
        self.size = size as usize;
        Ok(())
    }
}
