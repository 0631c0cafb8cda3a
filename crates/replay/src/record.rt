// Reads the records. Each tool has this file, since no library may read or write (.ci/run).
use records::Record;
use std::io;
use std::io::{ErrorKind, Read};

// None where the input ended; a part of a record is ignored.
pub(crate) fn next<R: Read>(input: &mut R) -> io::Result<Option<Record>> {
    let mut bytes = [0u8; 16];
    match input.read_exact(&mut bytes) {
        Ok(()) => Ok(Some(records::decode(&bytes))),
        Err(e) if e.kind() == ErrorKind::UnexpectedEof => Ok(None),
        Err(e) => Err(e),
    }
}
