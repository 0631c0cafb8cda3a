// Why the lines end early. Each of three programs has this file, since no library names what writes (.ci/run).
use refusal::Refusal;
use std::{fmt, io};

#[derive(Drop)]
pub(crate) enum Failure {
    // A line could not be written.
    Io(io::Error),
    Refused(Refusal),
    // A call answered another thing than the lines go on with.
    Other,
}

impl From<io::Error> for Failure {
    fn from(error: io::Error) -> Failure {
        Failure::Io(error)
    }
}

impl From<Refusal> for Failure {
    fn from(refusal: Refusal) -> Failure {
        Failure::Refused(refusal)
    }
}

// What `main` ends with: of a line that could not be written it is the error's own.
impl fmt::Debug for Failure {
    fn fmt<W: fmt::Write>(&self, f: &mut fmt::Formatter<W>) -> fmt::Result {
        match self {
            Failure::Io(error) => write!(f, "{error:?}"),
            Failure::Refused(refusal) => write!(f, "{refusal}"),
            Failure::Other => f.write_str("another answer"),
        }
    }
}
