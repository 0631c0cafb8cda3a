// What a run answers, where a rule check goes on with it.
use super::failure::Failure;
use prover::{Reply, Step};
use vector::Message;

pub(crate) fn total(step: &Step) -> Result<u32, Failure> {
    match step.answer? {
        Reply::FieldTotal(x) => Ok(x),
        _ => Err(Failure::Other),
    }
}

pub(crate) fn message(step: &Step) -> Result<Message, Failure> {
    match step.answer? {
        Reply::Message(even, cross, odd) => Ok(Message { even, cross, odd }),
        _ => Err(Failure::Other),
    }
}
