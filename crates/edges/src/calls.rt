// Calls of a run in small mode, which use no buffer.
use prover::Step;

pub(crate) fn opened(step: Step) -> Step {
    step.run.open_pass(step.pass)
}

pub(crate) fn opened_at(step: Step, point: u32) -> Step {
    step.run.open_at(step.pass, point)
}

pub(crate) fn given(step: Step, reading: i32, weight: u16) -> Step {
    step.run.item(step.pass, reading, weight, &mut [], &mut [])
}

pub(crate) fn closed(step: Step) -> Step {
    step.run.close(step.pass)
}

pub(crate) fn challenged(step: Step, challenge: u32) -> Step {
    step.run.challenge(step.pass, challenge, &mut [], &mut [])
}
