// The values of an opening, from the evaluations of its pass.
ghost use Rattle.std.specs.Prelude.{◌≡◌, ◌+◌, ◌*◌, ◌≤◌};
ghost use Rattle.std.proofs.lemmas.List.Edits.{sets};
ghost use Rattle.vector.specs.Opening.{triple_values};
ghost use Rattle.pass.specs.Values.{triple_in, values_of};

use kernel::Evals;

// The values of one vector, three for each round, from a place on.
#[tactic(auto, unfolding(vector::specs::Opening::triple_values))]
fn triples(
    values: [u32; 90],
    from: usize,
    rounds: usize,
    point: [u32; 16],
    minus: [u32; 16],
    square: [u32; 16],
) -> [u32; 90]
    requires { (rounds ≤ 15) × (from + 3 * rounds ≤ 90) }
    ensures { result ≡ sets values from (triple_values (triple_in point minus square) 0 rounds) }
{
    let mut out = values;
    for j in 0..rounds {
        out[from + 3 * j] = point[j];
        out[from + 3 * j + 1] = minus[j];
        out[from + 3 * j + 2] = square[j + 1];
    }
    out
}

// f before g.
#[tactic(auto, unfolding(crate::specs::Values::values_of))]
pub fn values_of(evals: Evals, rounds: u32) -> [u32; 90]
    ensures { result ≡ values_of evals rounds }
{
    let none = [0u32; 90];
    if rounds > refusal::MAX_ROUNDS {
        return none;
    }
    let n = rounds as usize;
    let fpoint = evals.fpoint;
    let fminus = evals.fminus;
    let fsquare = evals.fsquare;
    let gpoint = evals.gpoint;
    let gminus = evals.gminus;
    let gsquare = evals.gsquare;
    let half = triples(none, 0, n, fpoint, fminus, fsquare);
    triples(half, 3 * n, n, gpoint, gminus, gsquare)
}
