// What a call hands back where no values stand beside the answer.
ghost use Rattle.std.specs.Prelude.{◌≡◌};
ghost use Rattle.prover.specs.Records.{step_with, answered_step, refused_step};

use super::{Reply, Run, Step, StepOr};
use pass::Pass;

pub fn answer<E>(run: Run, pass: Pass, answer: Result<Reply, E>) -> StepOr<E>
    ensures { result ≡ step_with run pass answer }
{
    StepOr {
        run,
        pass,
        answer,
        values: [0u32; 90],
    }
}

pub fn answered(run: Run, pass: Pass, reply: Reply) -> Step
    ensures { result ≡ answered_step run pass reply }
{
    answer(run, pass, Ok(reply))
}

// A refusal hands the records back unchanged.
pub fn refuse<E>(run: Run, pass: Pass, refusal: E) -> StepOr<E>
    ensures { result ≡ refused_step run pass refusal }
{
    answer(run, pass, Err(refusal))
}
