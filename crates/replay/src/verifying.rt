// The verifier's calls, each made as data.
use super::fault::Fault;
use super::{Held, answers};
use calls::query::Query;
use dispatch::blocks::{fits, to_verifier};
use dispatch::named::query_of;
use dispatch::query::{Heard, stepped};
use dispatch::within::ask_within;
use records::Record;
use records::parts::{first, rest};
use std::io::Write;
use verifier::{Reply, Verifier};

// With the scratch list, whose first b numbers are the twists of op 31. A refused start leaves the verifier that there is.
pub(crate) fn start<W: Write>(out: &mut W, held: &mut Held, r: Record) -> Result<(), Fault> {
    let values = held.lists.numbers();
    let step = match r.op {
        30 => Verifier::start_plain(r.a, r.b, values),
        31 => {
            let (twists, challenges) = values
                .split_at_checked(r.b as usize)
                .ok_or(records::Fault::Bad)?;
            Verifier::start_twisted(r.a, twists, challenges)
        }
        _ => Verifier::start_rule(r.a, r.b, values),
    };
    if let Ok(Reply::Started) = step.answer {
        held.verifier = Some(step.verifier);
    }
    answers::told(out, stepped(step).told)?;
    Ok(())
}

pub(crate) fn call<W: Write>(out: &mut W, held: &mut Held, r: Record) -> Result<(), Fault> {
    let query = query_of(r).ok_or(records::Fault::Bad)?;
    let Some(verifier) = held.verifier else {
        return Err(Fault::NoVerifier);
    };
    let heard = asked(held, verifier, query, r.op);
    took(out, held, heard)
}

// With the scratch list and the proof file. The scratch list of a batch is split by op 41; all of it is values elsewhere.
fn asked(held: &Held, verifier: Verifier, query: Query, op: u32) -> Heard {
    let all = held.lists.numbers();
    let n = if op == 42 {
        held.lists.opened
    } else {
        all.len()
    };
    ask_within(
        verifier,
        query,
        held.proof.size,
        &held.proof.bytes,
        first(n, all),
        rest(n, all),
    )
}

// A block of items.
pub(crate) fn block<W: Write>(out: &mut W, held: &mut Held, r: Record) -> Result<(), Fault> {
    if !fits(&held.lists, r) {
        return Err(Fault::from(records::Fault::Bad));
    }
    let Some(verifier) = held.verifier else {
        return Err(Fault::NoVerifier);
    };
    let heard = to_verifier(verifier, &held.lists, &held.slots, r);
    took(out, held, heard)
}

// Keeps the verifier that a call handed back, and prints what it answers.
fn took<W: Write>(out: &mut W, held: &mut Held, heard: Heard) -> Result<(), Fault> {
    held.verifier = Some(heard.verifier);
    answers::told(out, heard.told)?;
    Ok(())
}
