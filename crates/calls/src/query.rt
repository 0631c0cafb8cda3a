// Calls of a verifier as data.
use item::Given;

#[derive(Clone, Copy, Debug, PartialEq, Eq)]
pub enum Query {
    Give(Given),
    Close(i64),
    CloseClaim(u32),
    Message(u32, u32, u32),
    Verdict,
    // The lent file.
    Proof,
    // At a point, of the lent values.
    CheckOpening(u32),
    // Of a number of logs, with z and the point, of the lent values and log values.
    CheckBatch(u32, u32, u32),
}
