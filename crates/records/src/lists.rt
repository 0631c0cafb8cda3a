// The scratch list, and how much of the buffers is lent.
ghost use Rattle.std.specs.Prelude.{◌≡◌, ◌+◌, leb, length, take, drop};
ghost use Rattle.records.specs.Lists.{no_lists, numbers_in, saying, pushes, lends, splits, place_says, placed, keeps, buffer_after};

use super::parts::{first, rest};
use super::{Fault, Record};

// How many first places of each buffer are lent; the scratch list, how many numbers it has, and how many first ones are opening values.
// An array and a count, since a tool may copy what it keeps: an `ArrayVec` is no `Copy`.
#[derive(Clone, Copy)]
pub struct Lists {
    pub flent: usize,
    pub glent: usize,
    pub scratch: [u32; 128],
    pub held: usize,
    pub opened: usize,
}

impl Lists {
    pub fn new() -> Lists
        ensures { result ≡ no_lists }
    {
        Lists {
            flent: 0,
            glent: 0,
            scratch: [0; 128],
            held: 0,
            opened: 0,
        }
    }

    // The numbers of the scratch list.
    pub fn numbers(&self) -> &[u32]
        ensures { result.now ≡ numbers_in self.now }
    {
        numbers(self.held, &self.scratch)
    }

    // Whether the scratch list has as many numbers as a and b together.
    pub fn has(&self, a: u32, b: u32) -> bool
        ensures { result ≡ leb (a + b) (length (numbers_in self.now)) }
    {
        has(self.held, &self.scratch, a, b)
    }

    // So many of the scratch list's numbers after the first ones, as far as there are.
    pub fn part(&self, from: u32, count: u32) -> &[u32]
        ensures { result.now ≡ take count (drop from (numbers_in self.now)) }
    {
        part(self.held, &self.scratch, from, count)
    }

    // Ops 1 to 4, and 41.
    pub fn keep(&mut self, r: Record, f: &mut [u32; 4096], g: &mut [u32; 4096]) -> Result<(), Fault>
        ensures kept { saying self.new result ≡ keeps self.old r }
        ensures f { f.new ≡ buffer_after 0 r f.old }
        ensures g { g.new ≡ buffer_after 1 r g.old }
    {
        match r.op {
            1 => {
                self.held = 0;
                Ok(())
            }
            2 => self.push(r.a),
            3 => self.lend(r.a, r.b),
            4 => place(r, f, g),
            41 => self.split(r.a),
            _ => Err(Fault::Bad),
        }
    }

    fn push(&mut self, a: u32) -> Result<(), Fault>
        ensures { saying self.new result ≡ pushes self.old a }
    {
        if self.held >= 128 {
            return Err(Fault::Full);
        }
        self.scratch[self.held] = a;
        self.held += 1;
        Ok(())
    }

    fn lend(&mut self, a: u32, b: u32) -> Result<(), Fault>
        ensures { saying self.new result ≡ lends self.old a b }
    {
        if a > 4096 || b > 4096 {
            return Err(Fault::Bad);
        }
        self.flent = a as usize;
        self.glent = b as usize;
        Ok(())
    }

    // The first a numbers of the scratch list are opening values.
    fn split(&mut self, a: u32) -> Result<(), Fault>
        ensures { saying self.new result ≡ splits self.old a }
    {
        if a > 128 {
            return Err(Fault::Bad);
        }
        self.opened = a as usize;
        Ok(())
    }
}

// The numbers of a scratch list of any length.
pub fn numbers(held: usize, scratch: &[u32]) -> &[u32]
    ensures { result.now ≡ take held scratch.now }
{
    first(held, scratch)
}

// Whether it has as many numbers as a and b together.
pub fn has(held: usize, scratch: &[u32], a: u32, b: u32) -> bool
    ensures { result ≡ leb (a + b) (length (take held scratch.now)) }
{
    (a as usize) + (b as usize) <= numbers(held, scratch).len()
}

// So many of its numbers after the first ones, as far as there are.
pub fn part(held: usize, scratch: &[u32], from: u32, count: u32) -> &[u32]
    ensures { result.now ≡ take count (drop from (take held scratch.now)) }
{
    first(count as usize, rest(from as usize, numbers(held, scratch)))
}

// Place b of f or g becomes c.
fn place(r: Record, f: &mut [u32; 4096], g: &mut [u32; 4096]) -> Result<(), Fault>
    ensures says { result ≡ place_says r }
    ensures f { f.new ≡ placed 0 r f.old }
    ensures g { g.new ≡ placed 1 r g.old }
{
    if r.b >= 4096 {
        return Err(Fault::Bad);
    }
    let at = r.b as usize;
    match r.a {
        0 => f[at] = r.c,
        1 => g[at] = r.c,
        _ => return Err(Fault::Bad),
    }
    Ok(())
}
