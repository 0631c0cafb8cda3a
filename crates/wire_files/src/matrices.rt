// Matrix files.
use super::changed;
use lines::Refused;
use std::io;
use std::io::Write;
use wire::matrix::{Entry, Shape, matrix_entry, read_matrix};

// Two rows and columns: 5 and 6 at (0, 1), 7 at (1, 0).
const MATRIX: [u8; 32] = [
    82, 86, 77, 1, 0, 1, 3, 0, 0, 0, 1, 0, 5, 0, 0, 0, 0, 0, 1, 0, 6, 0, 0, 0, 1, 0, 0, 0, 7, 0, 0,
    0,
];

fn matrix<W: Write>(out: &mut W, label: &str, file: &[u8]) -> io::Result<()> {
    match read_matrix(file) {
        Ok(Shape { rounds, count }) => writeln!(out, "{label}: {rounds} {count}"),
        Err(refusal) => writeln!(out, "{label}: {}", Refused(refusal)),
    }
}

fn entry<W: Write>(out: &mut W, file: &[u8], k: u32) -> io::Result<()> {
    match matrix_entry(file, k) {
        Some(Entry { row, column, value }) => {
            writeln!(out, "matrix entry {k}: {row} {column} {value}")
        }
        None => writeln!(out, "matrix entry {k}: nothing"),
    }
}

pub(crate) fn read<W: Write>(out: &mut W) -> io::Result<()> {
    matrix(out, "matrix", &MATRIX)?;
    entry(out, &MATRIX, 0)?;
    entry(out, &MATRIX, 2)?;
    entry(out, &MATRIX, 3)?;
    matrix(out, "matrix 7 bytes", &MATRIX[..7])?;
    matrix(out, "matrix RVL", &changed(MATRIX, 2, b'L'))?;
    matrix(out, "matrix version 0", &changed(MATRIX, 3, 0))?;
    matrix(out, "matrix n 16", &changed(MATRIX, 5, 16))?;
    matrix(out, "matrix count 2", &changed(MATRIX, 6, 2))?;
    matrix(out, "matrix 31 bytes", &MATRIX[..31])?;
    matrix(out, "matrix column 2", &changed(MATRIX, 10, 2))?;
    matrix(out, "matrix row 2", &changed(MATRIX, 24, 2))?;
    matrix(out, "matrix row falls", &changed(MATRIX, 8, 1))?;
    matrix(out, "matrix column falls", &changed(MATRIX, 18, 0))?;
    matrix(out, "matrix value 0", &changed(MATRIX, 12, 0))?;
    matrix(out, "matrix value over P", &changed(MATRIX, 31, 128))
}
