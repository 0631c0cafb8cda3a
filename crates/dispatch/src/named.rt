// The call that the op of a record names, with its numbers.
ghost use Rattle.std.specs.Prelude.{◌≡◌};
ghost use Rattle.dispatch.specs.Named.{file_named, call_named, query_posed};

use calls::Call;
use calls::query::Query;
use item::Given;
use records::signs::signed64;
use records::{Record, signs};

// Ops 13 to 24; none where there is no such op, or a number is out of its range.
pub fn call_of(r: Record) -> Option<Call>
    ensures { result ≡ call_named r }
{
    match r.op {
        13 => Some(Call::OpenPass),
        14 => Some(Call::OpenAt(r.a)),
        15 => Some(Call::Give(signs::item(r.a, r.b)?)),
        16 => Some(Call::Give(Given::Numbers(r.a, r.b))),
        17 => Some(Call::Close),
        18 => Some(Call::Message),
        19 => Some(Call::Challenge(r.a)),
        20 => Some(Call::Ends),
        21 => Some(Call::Opening(r.a)),
        22 => Some(Call::ToFull),
        23 => Some(Call::ToSmall),
        24 => file_named(r.a),
        _ => None,
    }
}

// The proof file has 256 bytes.
fn file_named(size: u32) -> Option<Call>
    ensures { result ≡ file_named size }
{
    if size > 256 {
        return None;
    }
    Some(Call::WriteProof)
}

// Ops 33 to 40, and 42; none likewise.
pub fn query_of(r: Record) -> Option<Query>
    ensures { result ≡ query_posed r }
{
    match r.op {
        33 => Some(Query::Give(signs::item(r.a, r.b)?)),
        34 => Some(Query::Give(Given::Numbers(r.a, r.b))),
        35 => Some(Query::Close(signed64(r.a, r.b))),
        36 => Some(Query::CloseClaim(r.a)),
        37 => Some(Query::Message(r.a, r.b, r.c)),
        38 => Some(Query::Verdict),
        39 => Some(Query::Proof),
        40 => Some(Query::CheckOpening(r.a)),
        42 => Some(Query::CheckBatch(r.a, r.b, r.c)),
        _ => None,
    }
}
