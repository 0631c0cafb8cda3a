// The calls on the file: ops 52 to 57.
use lines::Hex;
use std::io;
use std::io::Write;
use wire::{log, matrix, proof};

pub(crate) fn log<W: Write>(out: &mut W, file: &[u8]) -> io::Result<()> {
    match log::read_log(file) {
        Ok(head) => writeln!(out, "log {} {}", head.count, head.version),
        Err(refusal) => writeln!(out, "{refusal}"),
    }
}

pub(crate) fn log_item<W: Write>(out: &mut W, file: &[u8], i: u32) -> io::Result<()> {
    match log::log_item(file, i) {
        Some(item) => writeln!(out, "item {} {}", item.reading, item.weight),
        None => writeln!(out, "nothing"),
    }
}

pub(crate) fn proof<W: Write>(out: &mut W, file: &[u8]) -> io::Result<()> {
    match proof::read_proof(file) {
        Ok(head) => writeln!(out, "proof {} {}", head.rounds, head.total),
        Err(refusal) => writeln!(out, "{refusal}"),
    }
}

pub(crate) fn proof_round<W: Write>(out: &mut W, file: &[u8], round: u32) -> io::Result<()> {
    writeln!(out, "part {}", Hex(proof::proof_round(file, round)))
}

pub(crate) fn matrix<W: Write>(out: &mut W, file: &[u8]) -> io::Result<()> {
    match matrix::read_matrix(file) {
        Ok(shape) => writeln!(out, "matrix {} {}", shape.rounds, shape.count),
        Err(refusal) => writeln!(out, "{refusal}"),
    }
}

pub(crate) fn matrix_entry<W: Write>(out: &mut W, file: &[u8], k: u32) -> io::Result<()> {
    match matrix::matrix_entry(file, k) {
        Some(entry) => writeln!(out, "entry {} {} {}", entry.row, entry.column, entry.value),
        None => writeln!(out, "nothing"),
    }
}
