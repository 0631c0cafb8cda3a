// The phase of a run: its mode, what is next and the kind of its pass; what may open, close and change; the level.
#![tactic(auto)]

pub mod folds;
pub mod levels;
pub mod order;
pub mod turns;

#[derive(Clone, Copy, Debug, PartialEq, Eq)]
pub enum Mode {
    // Streaming: each answer takes a pass.
    Small,
    // In memory: both vectors lie in lent buffers and are folded there.
    Full,
}

// What is next in the run. The round is the number of challenges taken.
#[derive(Clone, Copy, Debug, PartialEq, Eq)]
pub enum Next {
    Total,
    Message,
    Challenge,
    Ends,
    Openings,
}

#[derive(Clone, Copy, Debug, PartialEq, Eq)]
pub enum Kind {
    // No pass is open.
    Shut,
    // A pass for what is next.
    Asked,
    // A change to full mode.
    Change,
}
