// What a call answers, where a line or the run goes on with it, and how a line prints it.
use super::failure::Failure;
use prover::{Reply, Step};
use std::fmt::{self, Display, Formatter};
use vector::Message;

// An item or a close that is taken.
pub(crate) fn taken(step: &Step) -> Result<(), Failure> {
    match step.answer? {
        Reply::Taken | Reply::Total(_) => Ok(()),
        _ => Err(Failure::Other),
    }
}

// The close of a verifier's pass.
pub(crate) fn closed(step: &verifier::Step) -> Result<(), Failure> {
    match step.answer? {
        verifier::Reply::Closed => Ok(()),
        _ => Err(Failure::Other),
    }
}

pub(crate) fn message(step: &Step) -> Result<Message, Failure> {
    match step.answer? {
        Reply::Message(even, cross, odd) => Ok(Message { even, cross, odd }),
        _ => Err(Failure::Other),
    }
}

// Of f and of g.
pub(crate) fn ends(step: &Step) -> Result<(u32, u32), Failure> {
    match step.answer? {
        Reply::Ends(f, g) => Ok((f, g)),
        _ => Err(Failure::Other),
    }
}

// Whether the call was taken, as the end of a line.
#[derive(Drop)]
pub(crate) struct Outcome(pub(crate) Result<(), Failure>);

impl Display for Outcome {
    fn fmt<W: fmt::Write>(&self, f: &mut Formatter<W>) -> fmt::Result {
        match &self.0 {
            Ok(()) => write!(f, "taken"),
            Err(Failure::Refused(refusal)) => write!(f, "{refusal}"),
            Err(_) => write!(f, "other"),
        }
    }
}
