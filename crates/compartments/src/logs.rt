// The logs of three compartments, of equal n and unequal L, and what they are together.
use batch::{combined_item, log_value, start_batch};
use prover::Step;
use refusal::Refusal;

pub(crate) const LOGS: u32 = 3;

pub(crate) const Z: u32 = 3;

pub(crate) const CHALLENGES: [u32; 2] = [2, 3];

pub(crate) const POINT: u32 = 2;

// -180 for 10 minutes, -175 for 20, 40 for 5.
pub(crate) const FROZEN: [u8; 19] = [
    82, 86, 76, 1, 0, 3, 0, 76, 255, 10, 0, 81, 255, 20, 0, 40, 0, 5, 0,
];

// 5 for 10 minutes, 7 for 20, 0 for 5, -1 for 30.
pub(crate) const CHILLED: [u8; 23] = [
    82, 86, 76, 1, 0, 4, 0, 5, 0, 10, 0, 7, 0, 20, 0, 0, 0, 5, 0, 255, 255, 30, 0,
];

// 150 for 15 minutes, 160 for 15, 155 for 5.
pub(crate) const DRY: [u8; 19] = [
    82, 86, 76, 1, 0, 3, 0, 150, 0, 15, 0, 160, 0, 15, 0, 155, 0, 5, 0,
];

// One item: n is 0.
pub(crate) const SINGLE: [u8; 11] = [82, 86, 76, 1, 0, 1, 0, 5, 0, 10, 0];

// Item i of the combined vector.
pub(crate) fn item(i: u32) -> u32 {
    let none = &FROZEN[..0];
    combined_item(
        LOGS, &FROZEN, &CHILLED, &DRY, none, none, none, none, none, Z, i,
    )
}

// The run of so many of the logs that are handed in.
pub(crate) fn begin(count: u32, [first, second, third]: [&[u8]; 3], z: u32) -> Step {
    let none = &FROZEN[..0];
    start_batch(
        count,
        first,
        second,
        third,
        none,
        none,
        none,
        none,
        none,
        z,
        &CHALLENGES,
    )
}

// The logs' values at the point.
pub(crate) fn values() -> Result<[u32; 3], Refusal> {
    Ok([
        log_value(&FROZEN, POINT)?,
        log_value(&CHILLED, POINT)?,
        log_value(&DRY, POINT)?,
    ])
}
