// Eight slots of up to 256 bytes each.
ghost use Rattle.std.specs.Prelude.{◌≡◌, ◌<◌, ◌*◌, get_or, take, drop};
ghost use Rattle.records.specs.Slots.{slot_room, no_slots, slot_in, saying, appends, fills};

use super::parts::{first, rest};
use super::{Fault, Record};

// The slots one after the other, and how many bytes each has: arrays, since a tool may copy what it keeps (`Lists`).
#[derive(Clone, Copy)]
pub struct Slots {
    pub bytes: [u8; 2048],
    pub sizes: [usize; 8],
}

impl Slots {
    pub fn new() -> Slots
        ensures { result ≡ no_slots }
    {
        Slots {
            bytes: [0; 2048],
            sizes: [0; 8],
        }
    }

    // The bytes of slot k; none where there is no such slot.
    pub fn slot(&self, k: u32) -> &[u8]
        ensures { result.now ≡ slot_in k self.now }
    {
        slot(&self.bytes, &self.sizes, k)
    }

    // Ops 60 and 61.
    pub fn fill(&mut self, r: Record) -> Result<(), Fault>
        ensures { saying self.new result ≡ fills self.old r }
    {
        if r.a > 7 {
            return Err(Fault::Bad);
        }
        let at = r.a as usize;
        match r.op {
            60 => {
                self.sizes[at] = 0;
                Ok(())
            }
            61 => self.append(at, r.b),
            _ => Err(Fault::Bad),
        }
    }

    fn append(&mut self, slot: usize, byte: u32) -> Result<(), Fault>
        requires { slot < 8 }
        ensures { saying self.new result ≡ appends self.old slot byte }
    {
        let byte = u8::try_from(byte).map_err(|_| Fault::Bad)?;
        let size = self.sizes[slot];
        if size >= 256 {
            return Err(Fault::Full);
        }
        self.bytes[slot * 256 + size] = byte;
        self.sizes[slot] = size + 1;
        Ok(())
    }
}

// How many bytes slot k has; none where there is no such slot.
fn size_of(sizes: &[usize], k: u32) -> usize
    ensures { result ≡ get_or sizes.now k 0 }
{
    sizes.get(k as usize).copied().unwrap_or(0)
}

// The bytes of slot k of any bytes and sizes, as far as there are.
pub fn slot<'a>(bytes: &'a [u8], sizes: &'a [usize], k: u32) -> &'a [u8]
    ensures { result.now ≡ take (get_or sizes.now k 0) (drop (k * slot_room) bytes.now) }
{
    first(size_of(sizes, k), rest((k as usize) * 256, bytes))
}
