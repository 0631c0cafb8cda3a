// Why a call answers nothing.
use std::{fmt, io};

#[derive(Debug, Drop)]
pub enum Fault {
    Record(records::Fault),
    NoRun,
    NoVerifier,
    // The line itself could not be written.
    Io(io::Error),
}

impl From<records::Fault> for Fault {
    fn from(fault: records::Fault) -> Fault {
        Fault::Record(fault)
    }
}

impl From<io::Error> for Fault {
    fn from(error: io::Error) -> Fault {
        Fault::Io(error)
    }
}

impl fmt::Display for Fault {
    fn fmt<W: fmt::Write>(&self, f: &mut fmt::Formatter<W>) -> fmt::Result {
        match self {
            Fault::Record(fault) => write!(f, "{fault}"),
            Fault::NoRun => f.write_str("no run"),
            Fault::NoVerifier => f.write_str("no verifier"),
            Fault::Io(error) => write!(f, "{error}"),
        }
    }
}
