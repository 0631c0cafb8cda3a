// Folds, messages, evaluations and weights of vectors of numbers modulo p, in slices that the caller lends.
#![tactic(auto)]

pub mod sizes;
pub mod slice;
pub mod weight;

#[derive(Clone, Copy)]
pub struct Message {
    pub even: u32,
    pub cross: u32,
    pub odd: u32,
}
