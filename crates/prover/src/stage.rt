// The stage of a run, which is all that its pass reads of it.
ghost use Rattle.std.specs.Prelude.{◌≡◌};
ghost use Rattle.prover.specs.Level.{stage_of};

use super::Run;
use pass::Stage;

pub fn stage_of(run: Run) -> Stage
    ensures { result ≡ stage_of run }
{
    let challenges = run.challenges;
    Stage {
        start: run.start,
        challenges,
        round: run.round,
        next: run.next,
    }
}
