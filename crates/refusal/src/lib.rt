// Why a call is refused, and the limits of documents 01 and 02. specs/ has the same names; `number`, `index`, `numbers` and `limits` tie the two.
#![tactic(auto)]

ghost use Rattle.std.specs.Prelude.{◌≡◌};
ghost use Rattle.refusal.specs.Number as number;
ghost use Rattle.refusal.specs.Limit as limit;
ghost use Rattle.refusal.specs.Refusal.{number_of, index_of, required};

use std::error::Error;
use std::fmt;

/// Why a call is refused: a row of the table each. Those of one item, entry or reading carry its index.
#[derive(Clone, Copy, Debug, PartialEq, Eq)]
pub enum Refusal {
    Header,
    Version,
    Count,
    Size,
    Weight(u32),
    Argument,
    Total,
    Items,
    Buffer,
    Order,
    Number,
    Turn,
    Place(u32),
    Sorted(u32),
    Value(u32),
    Vector,
    Logs,
    Reading(u32),
}

impl Refusal {
    /// Its number in the table.
    pub fn number(self) -> u8
        ensures { result ≡ number_of self }
    {
        match self {
            Refusal::Header => 1,
            Refusal::Version => 2,
            Refusal::Count => 3,
            Refusal::Size => 4,
            Refusal::Weight(_) => 5,
            Refusal::Argument => 6,
            Refusal::Total => 7,
            Refusal::Items => 8,
            Refusal::Buffer => 9,
            Refusal::Order => 10,
            Refusal::Number => 11,
            Refusal::Turn => 12,
            Refusal::Place(_) => 13,
            Refusal::Sorted(_) => 14,
            Refusal::Value(_) => 15,
            Refusal::Vector => 16,
            Refusal::Logs => 17,
            Refusal::Reading(_) => 18,
        }
    }

    /// The index of the item, entry or reading that is at fault, where it is one.
    pub fn index(self) -> Option<u32>
        ensures { result ≡ index_of self }
    {
        match self {
            Refusal::Weight(i)
            | Refusal::Place(i)
            | Refusal::Sorted(i)
            | Refusal::Value(i)
            | Refusal::Reading(i) => Some(i),
            _ => None,
        }
    }
}

/// As the tools print it: the number and, where there is one, the index.
impl fmt::Display for Refusal {
    fn fmt<W: fmt::Write>(&self, f: &mut fmt::Formatter<W>) -> fmt::Result {
        write!(f, "refused {}", self.number())?;
        if let Some(i) = self.index() {
            write!(f, " {i}")?;
        }
        Ok(())
    }
}

impl Error for Refusal {}

/// One check, which is refused where it fails.
pub fn require(ok: bool, refusal: Refusal) -> Result<(), Refusal>
    ensures { result ≡ required ok refusal }
{
    if ok { Ok(()) } else { Err(refusal) }
}

pub const MAX_ITEMS: u32 = 32768;

pub const MAX_ROUNDS: u32 = 15;

pub const MAX_WEIGHT: u32 = 1440;

pub const MAX_LOGS: u32 = 8;

// Of a reading of version 2; the least is its negative.
pub const MAX_FINE: u32 = 1000000;

// The least total is its negative.
pub const MAX_TOTAL: u32 = 1073741823;

/// Every refusal number, in the table's order. An index changes no number.
pub fn numbers() -> [u8; 18]
    ensures { result ≡ number.numbers }
{
    [
        Refusal::Header.number(),
        Refusal::Version.number(),
        Refusal::Count.number(),
        Refusal::Size.number(),
        Refusal::Weight(0).number(),
        Refusal::Argument.number(),
        Refusal::Total.number(),
        Refusal::Items.number(),
        Refusal::Buffer.number(),
        Refusal::Order.number(),
        Refusal::Number.number(),
        Refusal::Turn.number(),
        Refusal::Place(0).number(),
        Refusal::Sorted(0).number(),
        Refusal::Value(0).number(),
        Refusal::Vector.number(),
        Refusal::Logs.number(),
        Refusal::Reading(0).number(),
    ]
}

pub fn limits() -> [u32; 6]
    ensures { result ≡ limit.limits }
{
    [
        MAX_ITEMS, MAX_ROUNDS, MAX_WEIGHT, MAX_TOTAL, MAX_LOGS, MAX_FINE,
    ]
}
