// The two files, and which of the refusals 1 to 6 and 18 they deserve.
ghost use Rattle.std.specs.Prelude.{◌≡◌, ◌+◌, ◌*◌, ◌≤◌, length};
ghost use Rattle.std.specs.Io.{ReadsAtMost};
ghost use Rattle.field.specs.Modulus.{modulus};
ghost use Rattle.vector.specs.Slice.{every, is_nonzero};
ghost use Rattle.wire.specs.Number.{word_at};
ghost use Rattle.trip.specs.Input.{read_limited, read_numbers, read_trip, input_of, number_at};

use field::Field;
use refusal::{Refusal, require};
use std::fs::Files;
use std::io::Read;
use std::{fs, io};
use wire::log::Head;
use wire::words::word_at;

// The program's own limit on L.
const LIMIT: u32 = 4096;

// The first bytes of the file, as many as fit; none where it cannot be opened.
pub(crate) fn read_file<R: Files>(rt: &R, path: &str, bytes: &mut [u8]) -> io::Result<usize>
    ensures { ReadsAtMost result bytes.new }
{
    match fs::open(rt, path) {
        Ok(mut file) => read_full(&mut file, bytes),
        Err(_) => Ok(0),
    }
}

// Reads until the buffer is full or the file ends. A `while`: it counts bytes and not turns, and std reads to the end into the heap alone.
fn read_full<R: Read>(file: &mut R, bytes: &mut [u8]) -> io::Result<usize>
    ensures { ReadsAtMost result bytes.new }
{
    let mut size = 0;
    while size < bytes.len() {
        let read = file.read(&mut bytes[size..])?;
        if read == 0 {
            break;
        }
        size += read;
    }
    Ok(size)
}

pub(crate) fn check(log: &[u8], numbers: &[u8]) -> Result<Head, Refusal>
    ensures { input_of result ≡ read_trip (read_limited log.now) numbers.now }
{
    let head = wire::log::read_log_within(LIMIT, log)?;
    check_numbers(head, numbers)
}

// n challenges and a point.
#[tactic(auto, unfolding(crate::specs::Input::read_numbers))]
fn check_numbers(head: Head, numbers: &[u8]) -> Result<Head, Refusal>
    ensures { input_of result ≡ read_numbers head numbers.now }
{
    let count = vector::sizes::rounds_of(head.count) as usize + 1;
    require(numbers.len() == 4 * count, Refusal::Size)?;
    require(all_nonzero(numbers, count), Refusal::Argument)?;
    Ok(head)
}

fn all_nonzero(numbers: &[u8], count: usize) -> bool
    requires { 4 * count ≤ length numbers.now }
    ensures { result ≡ every count (λ k. is_nonzero modulus (number_at numbers.now k)) }
{
    for k in 0..count {
        if !nonzero(numbers, k) {
            return false;
        }
    }
    true
}

fn nonzero(numbers: &[u8], k: usize) -> bool
    requires { 4 * k + 4 ≤ length numbers.now }
    ensures { result ≡ is_nonzero modulus (number_at numbers.now k) }
{
    Field::nonzero_in(field::modulus(), word_at(numbers, 4 * k)).is_some()
}

// Number k of trip.rvc; zero past its end.
pub(crate) fn number(numbers: &[u8], k: u32) -> u32
    ensures { result ≡ word_at numbers.now (4 * k) }
{
    word_at(numbers, 4 * (k as usize))
}

// The items of a log as one block: what follows its header.
pub(crate) fn items_of(log: &[u8]) -> &[u8] {
    log.get(7..).unwrap_or(&[])
}
