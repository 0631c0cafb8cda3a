// The program's arguments: none, `full`, `change K` or `modes WORD`. By hand and not by `clap`, which passes over a word `--` that is
// refused here, takes no word that is not text, and allocates: this program stays within fixed memory (docs/EMBED.md).
ghost use Rattle.std.specs.Prelude.{◌≤◌, IfOk, IfSome, length};

use super::modes;
use std::env::{Env, FillError};
use thiserror::Error;

// No step of a run has this number.
const NEVER: u64 = u64::MAX;

#[derive(Clone, Copy, Debug, Error)]
#[error("usage: trip [full | change K | modes WORD]")]
pub(crate) struct Usage;

// The letters of the steps (`modes`). Linux hands a program no longer argument than the second buffer holds.
pub(crate) fn read<R: Env>(rt: &R) -> Result<[u8; 17], Usage> {
    let mut first = [0u8; 4096];
    let mut second = [0u8; 131072];
    let Err(FillError::NotPresent) = rt.arg(3, &mut [0u8; 1]) else {
        return Err(Usage);
    };
    match (argument(rt, 1, &mut first)?, argument(rt, 2, &mut second)?) {
        (None, None) => Ok(changing(NEVER)),
        (Some(b"full"), None) => Ok(changing(0)),
        (Some(b"change"), Some(number)) => decimal(number).map(changing).ok_or(Usage),
        (Some(b"modes"), Some(word)) if modes::is_word(word) => Ok(modes::letters_of(word, NEVER)),
        _ => Err(Usage),
    }
}

// At the start of the buffer. One that does not fit is no mode.
fn argument<'a, R: Env>(rt: &R, i: usize, buffer: &'a mut [u8]) -> Result<Option<&'a [u8]>, Usage>
    ensures { IfOk result (λ found. IfSome found (λ word. length word.now ≤ length buffer.old)) }
{
    match rt.arg(i, buffer) {
        Ok(size) => Ok(Some(&buffer[..size])),
        Err(FillError::NotPresent) => Ok(None),
        Err(FillError::TooLong) => Err(Usage),
    }
}

// In small mode up to this step, in full mode from it on.
fn changing(step: u64) -> [u8; 17] {
    modes::letters_of(b"s", step)
}

// Digits alone, which `parse` does not ask for; a number past every step stays so.
fn decimal(digits: &[u8]) -> Option<u64> {
    if digits.is_empty() || !digits.iter().all(u8::is_ascii_digit) {
        return None;
    }
    Some(
        digits.iter().fold(0u64, |n, &digit| {
            n.saturating_mul(10).saturating_add(u64::from(digit - b'0'))
        }),
    )
}
