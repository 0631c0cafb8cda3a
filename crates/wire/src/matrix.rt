// The R1CS matrix.
ghost use Rattle.std.specs.Prelude.{◌≡◌, ◌+◌, ◌*◌, ◌^◌, ◌<◌, ◌≤◌, ◌&&◌, length, ltb};
ghost use Rattle.refusal.specs.Outcome.{answered, require_all};
ghost use Rattle.refusal.specs.Refusal.{outcome};
ghost use Rattle.field.specs.Modulus.{modulus};
ghost use Rattle.field.specs.Number.{is_nonzero};
ghost use Rattle.wire.specs.Matrix.{entry, entry_at, matrix_entry, matrix_rounds, read_matrix, require_entry, sorted_at};

use super::header::check_header;
use super::number::{get16, get32};
use field::Field;
use refusal::{Refusal, require};

// The header's bytes, and those of an entry: row and column of two bytes each, then a value of four.
const HEADER: usize = 8;

const ENTRY: usize = 8;

const COLUMN: usize = 2;

const VALUE: usize = 4;

/// What a good matrix file says of its matrix: n and the count M of its entries.
#[derive(Clone, Copy, Debug, PartialEq, Eq)]
pub struct Shape {
    pub rounds: u32,
    pub count: u32,
}

/// An entry of a matrix.
#[derive(Clone, Copy, Debug, PartialEq, Eq)]
pub struct Entry {
    pub row: u32,
    pub column: u32,
    pub value: u32,
}

pub fn read_matrix(file: &[u8]) -> Result<Shape, Refusal>
    ensures { outcome result ≡ read_matrix modulus file.now }
{
    read_matrix_in(field::modulus(), file)
}

// For a call whose modulus is p.
#[tactic(auto, unfolding(crate::specs::Matrix::read_matrix))]
pub fn read_matrix_in(p: u32, file: &[u8]) -> Result<Shape, Refusal>
    ensures { outcome result ≡ read_matrix p file.now }
{
    check_header(file, b'M', HEADER)?;
    let rounds = u32::from(file[5]);
    require(rounds <= refusal::MAX_ROUNDS, Refusal::Count)?;
    let count = get16(file, 6);
    require(
        file.len() == HEADER + ENTRY * (count as usize),
        Refusal::Size,
    )?;
    check_entries(p, file, rounds, count)?;
    Ok(Shape { rounds, count })
}

// Refused at the lowest entry that fails a check.
fn check_entries(p: u32, file: &[u8], rounds: u32, count: u32) -> Result<(), Refusal>
    requires { (rounds ≡ matrix_rounds file.now) × (rounds ≤ 15) × (entry_at count ≤ length file.now) }
    ensures { outcome result ≡ require_all (require_entry p file.now) 0 count (answered tt) }
{
    let size = two_to(rounds);
    for k in 0..count {
        check_entry(p, file, size, k)?;
    }
    Ok(())
}

// 13, 14 and 15 of entry k.
fn check_entry(p: u32, file: &[u8], size: u32, k: u32) -> Result<(), Refusal>
    requires { (size ≡ 2 ^ matrix_rounds file.now) × (entry_at (k + 1) ≤ length file.now) }
    ensures { outcome result ≡ require_entry p file.now k (answered tt) }
{
    let n = k as usize;
    require(placed(file, size, n), Refusal::Place(k))?;
    require(sorted(file, n), Refusal::Sorted(k))?;
    require(valued(p, file, n), Refusal::Value(k))
}

fn two_to(n: u32) -> u32
    requires { n ≤ 15 }
    ensures { result ≡ 2 ^ n }
{
    1 << n
}

// 13: row and column of entry k below the size.
fn placed(file: &[u8], size: u32, k: usize) -> bool
    requires { entry_at (k + 1) ≤ length file.now }
    ensures { result ≡ (ltb (entry file.now k).row size && ltb (entry file.now k).column size) }
{
    get16(file, HEADER + ENTRY * k) < size && get16(file, HEADER + ENTRY * k + COLUMN) < size
}

// 14: entry k not before the one in front of it.
#[tactic(auto, unfolding(crate::specs::Matrix::in_order))]
fn sorted(file: &[u8], k: usize) -> bool
    requires { entry_at (k + 1) ≤ length file.now }
    ensures { result ≡ sorted_at file.now k }
{
    if k == 0 {
        return true;
    }
    let row = get16(file, HEADER + ENTRY * (k - 1));
    let column = get16(file, HEADER + ENTRY * (k - 1) + COLUMN);
    let next = get16(file, HEADER + ENTRY * k);
    let across = get16(file, HEADER + ENTRY * k + COLUMN);
    row < next || row == next && column <= across
}

// 15: the value of entry k a field number other than zero.
fn valued(p: u32, file: &[u8], k: usize) -> bool
    requires { entry_at (k + 1) ≤ length file.now }
    ensures { result ≡ is_nonzero p (entry file.now k).value }
{
    Field::nonzero_in(p, get32(file, HEADER + ENTRY * k + VALUE)).is_some()
}

// Entry k, where the file has its bytes. Only read_matrix says whether the file is a good matrix.
#[tactic(auto, unfolding(crate::specs::Matrix::matrix_entry))]
pub fn matrix_entry(file: &[u8], k: u32) -> Option<Entry>
    ensures { result ≡ matrix_entry file.now k }
{
    let n = k as usize;
    if file.len() < HEADER + ENTRY * (n + 1) {
        return None;
    }
    Some(Entry {
        row: get16(file, HEADER + ENTRY * n),
        column: get16(file, HEADER + ENTRY * n + COLUMN),
        value: get32(file, HEADER + ENTRY * n + VALUE),
    })
}
