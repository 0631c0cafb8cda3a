// The claim's step, which a run and its verifier share, and the equations of a verifier: a message against its claim, the verdict, and
// the sum of a batch.
#![tactic(auto)]

ghost use Rattle.std.specs.Prelude.{◌≡◌};
ghost use Rattle.claim.specs.Claim.{message_of3, next_of, heard_of, own_ends, found_of, sum_holds};

// No Result: `found_of` and the clauses of the verifier name these cases, and a no is no error.
#[derive(Clone, Copy, Debug, PartialEq, Eq)]
pub enum Finding {
    Yes,
    No(u32),
}

// even + cross·c + odd·c²
pub fn next_claim(p: u32, c: u32, even: u32, cross: u32, odd: u32) -> u32
    ensures { result ≡ next_of p c even cross odd }
{
    let linear = field::modular::add_mul(p, even, cross, c);
    let square = field::modular::mul(p, c, c);
    field::modular::add_mul(p, linear, odd, square)
}

// The next claim, after a message of the round whose challenge is c; None where the message fails.
pub fn hear(p: u32, claim: u32, c: u32, even: u32, cross: u32, odd: u32) -> Option<u32>
    ensures { result ≡ heard_of p claim c (message_of3 even cross odd) }
{
    if field::modular::add(p, even, odd) != claim {
        return None;
    }
    Some(next_claim(p, c, even, cross, odd))
}

// The end values of a proof file are the verifier's own.
pub fn ends_own(f: u32, g: u32, own_f: u32, own_g: u32) -> bool
    ensures { result ≡ own_ends f g own_f own_g }
{
    f == own_f && g == own_g
}

// The verdict after the last message, or after the one that failed in this round.
pub fn find(p: u32, rounds: u32, failed: bool, round: u32, claim: u32, f: u32, g: u32) -> Finding
    ensures { result ≡ found_of p rounds failed round claim f g }
{
    if failed {
        return Finding::No(round);
    }
    if claim == field::modular::mul(p, f, g) {
        return Finding::Yes;
    }
    Finding::No(rounds)
}

// A batch's value at the point is the sum of z^i times log i's value.
#[tactic(auto, unfolding(vector::specs::Slice::evaluate_slice))]
pub fn sum_holds(p: u32, z: u32, value: u32, logs: &[u32]) -> bool
    ensures { result ≡ sum_holds p z value logs.now }
{
    vector::slice::evaluate(p, logs, logs.len(), z) == value
}
