// The prover of a run: document 01's unit, in small mode, in full mode and changing over. A run and its pass go in by value and come
// back by value; a refused call hands both back unchanged and writes no buffer.
#![tactic(auto)]

mod answers;
mod blocks;
mod challenge;
mod change;
mod close;
mod formed;
mod full;
mod items;
mod open;
mod opening;
mod stage;
pub mod start;
mod written;

use item::Start;
use pass::Pass;
use phase::{Mode, Next};
use refusal::Refusal;

// 84 numbers: what the start fixed (L, n, plain, the twists), the mode and what is next, and what was taken and given.
#[derive(Clone, Copy, Debug, PartialEq, Eq)]
pub struct Run {
    pub start: Start,
    pub mode: Mode,
    pub next: Next,
    pub round: u32,
    pub challenges: [u32; 15],
    pub messages: [u32; 45],
    pub total: i64,
    // The claim that the verifier should hold.
    pub claim: u32,
    pub fend: u32,
    pub gend: u32,
}

// What an answered call answers.
#[derive(Clone, Copy, Debug, PartialEq, Eq)]
pub enum Reply {
    Started,
    Opened,
    Taken,
    Total(i64),
    FieldTotal(u32),
    Message(u32, u32, u32),
    Challenged,
    Ends(u32, u32),
    // The values are beside the answer.
    Opening,
    Changed,
    // The length of the proof file.
    Written(usize),
}

// What a call hands back. Where it is refused, its refusal is a row of the table.
pub type Step = StepOr<Refusal>;

// A step, or an `E` in the place of a row: what refuses a start that its caller refuses (`start::no_run`). `values` has an opening's 6n
// values in its first places, f before g; all other places are zero.
#[derive(Clone, Copy)]
pub struct StepOr<E> {
    pub run: Run,
    pub pass: Pass,
    pub answer: Result<Reply, E>,
    pub values: [u32; 90],
}
