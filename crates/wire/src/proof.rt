// The proof of a plain run.
ghost use Rattle.std.specs.Prelude.{◌≡◌, ◌+◌, ◌*◌, ◌<◌, ◌≤◌, length, get_or, take, nat_abs};
ghost use Rattle.std.proofs.lemmas.List.Edits.{sets};
ghost use Rattle.refusal.specs.Refusal.{outcome};
ghost use Rattle.field.specs.Modulus.{modulus};
ghost use Rattle.field.specs.Number.{is_reduced};
ghost use Rattle.wire.specs.Proof.{all_below, numbers, part_message, proof_ends, proof_file, proof_header, proof_message, proof_number, proof_round, proof_size, proof_values, read_proof, read_proof_of, write_proof, written_in};

use super::header::check_header;
use super::number::{bits32, get32, put32, signed32};
use field::Field;
use refusal::{Refusal, require};
use vector::Message;

/// What a good proof says of its run: n and the total.
#[derive(Clone, Copy, Debug, PartialEq, Eq)]
pub struct Head {
    pub rounds: u32,
    pub total: i64,
}

/// The end values.
#[derive(Clone, Copy, Debug, PartialEq, Eq)]
pub struct Ends {
    pub f: u32,
    pub g: u32,
}

pub fn read_proof(file: &[u8]) -> Result<Head, Refusal>
    ensures { outcome result ≡ read_proof modulus file.now }
{
    read_proof_in(field::modulus(), file)
}

// For a call whose modulus is p.
#[tactic(auto, unfolding(crate::specs::Proof::read_proof))]
pub fn read_proof_in(p: u32, file: &[u8]) -> Result<Head, Refusal>
    ensures { outcome result ≡ read_proof p file.now }
{
    check_header(file, b'P', 10)?;
    let rounds = u32::from(file[5]);
    require(rounds <= refusal::MAX_ROUNDS, Refusal::Count)?;
    require(file.len() == proof_size(rounds), Refusal::Size)?;
    let total = field::integer::widen(signed32(get32(file, 6)));
    require(field::total::within(p, total), Refusal::Total)?;
    require(
        file_reduced(p, file, 3 * (rounds as usize) + 2),
        Refusal::Number,
    )?;
    Ok(Head { rounds, total })
}

// For a verifier of `rounds` rounds: its own n is tested before the length.
pub fn read_proof_of(file: &[u8], rounds: u32) -> Result<Head, Refusal>
    ensures { outcome result ≡ read_proof_of modulus rounds file.now }
{
    read_proof_of_in(field::modulus(), file, rounds)
}

#[tactic(auto, unfolding(crate::specs::Proof::read_proof_of))]
pub fn read_proof_of_in(p: u32, file: &[u8], rounds: u32) -> Result<Head, Refusal>
    ensures { outcome result ≡ read_proof_of p rounds file.now }
{
    check_header(file, b'P', 10)?;
    let n = u32::from(file[5]);
    require(n == rounds, Refusal::Count)?;
    read_proof_in(p, file)
}

fn proof_size(rounds: u32) -> usize
    ensures { result ≡ proof_size rounds }
{
    18 + 12 * (rounds as usize)
}

// 11: a field number.
fn reduced(p: u32, x: u32) -> bool
    ensures { result ≡ is_reduced p x }
{
    Field::new_in(p, x).is_some()
}

// The first `count` numbers after the header.
fn file_reduced(p: u32, file: &[u8], count: usize) -> bool
    requires { 10 + 4 * count ≤ length file.now }
    ensures { result ≡ all_below p (proof_number file.now) count }
{
    for k in 0..count {
        if !reduced(p, get32(file, 10 + 4 * k)) {
            return false;
        }
    }
    true
}

// The twelve bytes of a round as a part of the caller's file; the empty part for a refused file or a round n or more.
#[tactic(auto, unfolding(crate::specs::Proof::part_in))]
pub fn proof_round(file: &[u8], round: u32) -> &[u8]
    ensures { result.now ≡ proof_round modulus file.now round }
{
    let Ok(head) = read_proof(file) else {
        return &file[..0];
    };
    if round < head.rounds {
        let at = 10 + 12 * (round as usize);
        &file[at..at + 12]
    } else {
        &file[..0]
    }
}

// The three numbers of a part that proof_round handed back.
#[tactic(auto, unfolding(crate::specs::Proof::part_message))]
pub fn part_message(part: &[u8]) -> Option<Message>
    ensures { result ≡ part_message part.now }
{
    if part.len() < 12 {
        return None;
    }
    Some(Message {
        even: get32(part, 0),
        cross: get32(part, 4),
        odd: get32(part, 8),
    })
}

// The message of a round, where the file has its bytes. Only read_proof says whether the file is a good proof.
#[tactic(auto, unfolding(crate::specs::Proof::proof_message))]
pub fn proof_message(file: &[u8], round: u32) -> Option<Message>
    ensures { result ≡ proof_message file.now round }
{
    let k = 3 * (round as usize);
    if file.len() < 22 + 12 * (round as usize) {
        return None;
    }
    Some(Message {
        even: get32(file, 10 + 4 * k),
        cross: get32(file, 10 + 4 * (k + 1)),
        odd: get32(file, 10 + 4 * (k + 2)),
    })
}

// The end values, where the file has their bytes. Only read_proof says whether the file is a good proof.
#[tactic(auto, unfolding(crate::specs::Proof::proof_ends))]
pub fn proof_ends(file: &[u8]) -> Option<Ends>
    ensures { result ≡ proof_ends file.now }
{
    if file.len() < 18 {
        return None;
    }
    let rounds = u32::from(file[5]);
    let n = rounds as usize;
    if file.len() < proof_size(rounds) {
        return None;
    }
    Some(Ends {
        f: get32(file, 10 + 12 * n),
        g: get32(file, 14 + 12 * n),
    })
}

// Writes the proof into the first places of `file`. `rounds` is a u32, so that no caller cuts a number over 255 before check 3.
pub fn write_proof(
    rounds: u32,
    total: i64,
    messages: [u32; 45],
    f: u32,
    g: u32,
    file: &mut [u8],
) -> Result<usize, Refusal>
    ensures { (outcome result ≡ write_proof modulus rounds total messages f g file.old) × (file.new ≡ written_in (write_proof modulus rounds total messages f g file.old) (proof_file rounds total (proof_values rounds messages f g)) file.old) }
{
    write_proof_in(field::modulus(), rounds, total, messages, f, g, file)
}

#[tactic(auto, unfolding(crate::specs::Proof::write_proof, crate::specs::Proof::written_in))]
pub fn write_proof_in(
    p: u32,
    rounds: u32,
    total: i64,
    messages: [u32; 45],
    f: u32,
    g: u32,
    file: &mut [u8],
) -> Result<usize, Refusal>
    ensures { (outcome result ≡ write_proof p rounds total messages f g file.old) × (file.new ≡ written_in (write_proof p rounds total messages f g file.old) (proof_file rounds total (proof_values rounds messages f g)) file.old) }
{
    require(rounds <= refusal::MAX_ROUNDS, Refusal::Count)?;
    require(field::total::within(p, total), Refusal::Total)?;
    let n = rounds as usize;
    require(values_reduced(p, messages, 3 * n), Refusal::Number)?;
    require(reduced(p, f), Refusal::Number)?;
    require(reduced(p, g), Refusal::Number)?;
    let size = proof_size(rounds);
    require(size <= file.len(), Refusal::Buffer)?;
    put_header(file, rounds as u8, total);
    put_numbers(file, 10, messages, 3 * n);
    put32(file, 10 + 12 * n, f);
    put32(file, 14 + 12 * n, g);
    Ok(size)
}

// The first `count` of the values.
fn values_reduced(p: u32, values: [u32; 45], count: usize) -> bool
    requires { count ≤ 45 }
    ensures { result ≡ all_below p (λ k. get_or values k 0) count }
{
    for k in 0..count {
        if !reduced(p, values[k]) {
            return false;
        }
    }
    true
}

#[tactic(auto, unfolding(crate::specs::Proof::proof_header, crate::specs::Number::bytes))]
fn put_header(file: &mut [u8], rounds: u8, total: i64)
    requires { (10 ≤ length file.old) × (nat_abs total ≤ 2147483648) }
    ensures { file.new ≡ sets file.old 0 (proof_header rounds total) }
{
    file[0] = b'R';
    file[1] = b'V';
    file[2] = b'P';
    file[3] = 1;
    file[4] = 0;
    file[5] = rounds;
    put32(file, 6, bits32(total));
}

#[tactic(auto, unfolding(crate::specs::Proof::numbers))]
fn put_numbers(file: &mut [u8], at: usize, values: [u32; 45], count: usize)
    requires { (count ≤ 45) × (at + 4 * count ≤ length file.old) }
    ensures { file.new ≡ sets file.old at (numbers (take count values)) }
{
    for k in 0..count {
        put32(file, at + 4 * k, values[k]);
    }
}
