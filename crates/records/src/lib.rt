// What the tools for lists of calls share: the numbers of a record, and what they keep for the calls. It prints nothing, as no library
// may: it answers what the tool says.
#![tactic(auto)]

ghost use Rattle.std.specs.Prelude.{◌≡◌};
ghost use Rattle.wire.specs.Number.{word_at};

pub mod lists;
pub mod parts;
pub mod proof;
pub mod signs;
pub mod slots;

use std::fmt;
use wire::words::word_at;

// A call: its op and three numbers.
#[derive(Clone, Copy)]
pub struct Record {
    pub op: u32,
    pub a: u32,
    pub b: u32,
    pub c: u32,
}

// Four numbers of four bytes.
pub fn decode(bytes: &[u8]) -> Record
    ensures { result ≡ record { op = word_at bytes.now 0; a = word_at bytes.now 4; b = word_at bytes.now 8; c = word_at bytes.now 12 } }
{
    Record {
        op: word_at(bytes, 0),
        a: word_at(bytes, 4),
        b: word_at(bytes, 8),
        c: word_at(bytes, 12),
    }
}

// Why a record makes no call: a number out of its range, or no room.
#[derive(Clone, Copy, Debug, PartialEq, Eq)]
pub enum Fault {
    Bad,
    Full,
}

impl fmt::Display for Fault {
    fn fmt<W: fmt::Write>(&self, f: &mut fmt::Formatter<W>) -> fmt::Result {
        match self {
            Fault::Bad => f.write_str("tool bad"),
            Fault::Full => f.write_str("tool full"),
        }
    }
}
