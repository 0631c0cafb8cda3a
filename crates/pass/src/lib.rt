// The record of a pass, and what opening, items and blocks of items do to it. It knows of its run only the stage that it is for.
#![tactic(auto)]

pub mod blocks;
pub mod checks;
pub mod formed;
pub mod items;
mod kernels;
pub mod lent;
pub mod open;
pub mod values;

use item::Start;
use kernel::{Evals, Points};
use phase::{Kind, Next};

// The two stacks with their counts, and beside them 107 numbers.
#[derive(Clone, Copy)]
pub struct Pass {
    pub kind: Kind,
    pub taken: u32,
    pub total: i64,
    pub dot: u32,
    pub points: Points,
    pub flevels: [u32; 16],
    pub fvalues: [u32; 16],
    pub fcount: usize,
    pub glevels: [u32; 16],
    pub gvalues: [u32; 16],
    pub gcount: usize,
    pub even: u32,
    pub cross: u32,
    pub odd: u32,
    pub evals: Evals,
}

// What a pass reads of its run.
#[derive(Clone, Copy, Debug, PartialEq, Eq)]
pub struct Stage {
    pub start: Start,
    pub challenges: [u32; 15],
    pub round: u32,
    pub next: Next,
}
