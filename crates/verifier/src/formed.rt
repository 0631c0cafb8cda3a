// The test for records that no call returns.
ghost use Rattle.std.specs.Prelude.{◌≡◌};
ghost use Rattle.verifier.specs.WellFormed.{turn_fits, well_formed};

use super::Verifier;

// The pass and the rounds fit each other.
#[tactic(auto, using(crate::proofs::Branches::branches), unfolding(crate::specs::WellFormed::turn_of))]
fn turn_fits(v: Verifier) -> bool
    ensures { result ≡ turn_fits v }
{
    if v.closed {
        v.taken == v.start.items && v.round <= v.start.rounds
    } else {
        !v.failed && v.round == 0 && v.taken <= v.start.items
    }
}

// 10: a record that a call returned.
#[tactic(auto, using(crate::proofs::Branches::branches), unfolding(crate::specs::WellFormed::well_formed))]
pub fn returned(v: Verifier) -> bool
    ensures { result ≡ well_formed v }
{
    item::starts::version_kept(v.start.plain, v.start.version)
        && item::starts::count_fits(v.start.items)
        && v.start.rounds == vector::sizes::rounds_of(v.start.items)
        && turn_fits(v)
}
