// The three files of document 01: the log, the proof and the R1CS matrix, little-endian.
#![tactic(auto)]

pub mod block;
mod header;
pub mod items;
pub mod log;
pub mod matrix;
mod number;
pub mod proof;
pub mod words;
