// Calls of a run and of a verifier as data: what the theorem over lists of calls speaks of. The crate `dispatch` makes them.
#![tactic(auto)]

pub mod query;

use item::Given;

#[derive(Clone, Copy, Debug, PartialEq, Eq)]
pub enum Call {
    OpenPass,
    OpenAt(u32),
    ToFull,
    ToSmall,
    Give(Given),
    Close,
    Message,
    Challenge(u32),
    Ends,
    Opening(u32),
    WriteProof,
}
