// The test for records that no call returns.
ghost use Rattle.std.specs.Prelude.{◌≡◌};
ghost use Rattle.prover.specs.WellFormed.{well_formed};

use super::Run;
use pass::Pass;
use pass::formed::{pass_formed, turn_formed};

#[tactic(auto, using(crate::proofs::Branches::branches), unfolding(crate::specs::WellFormed::well_formed))]
pub fn well_formed(p: u32, run: Run, pass: Pass) -> bool
    ensures { result ≡ well_formed p run pass }
{
    turn_formed(p, run.start, run.next, run.round, run.total)
        && pass_formed(run.start.items, run.mode, run.next, pass)
}
