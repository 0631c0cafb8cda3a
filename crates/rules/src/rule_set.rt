// Three rules on four numbers: the matrices of their files, and z, which is 1, x, x², x³ for x = 3. The rules are x · x = x²,
// x² · x = x³ and (x³ - x²) · 1 = 18; the fourth row is empty.
pub(crate) const ROUNDS: u32 = 2;

// The point of the rule check.
pub(crate) const V: u32 = 5;

pub(crate) const Z: [u32; 4] = [1, 3, 9, 27];

// 1 at (0, 1), 1 at (1, 2), P - 1 at (2, 2), 1 at (2, 3).
pub(crate) const A: [u8; 40] = [
    82, 86, 77, 1, 0, 2, 4, 0, 0, 0, 1, 0, 1, 0, 0, 0, 1, 0, 2, 0, 1, 0, 0, 0, 2, 0, 2, 0, 254,
    255, 255, 127, 2, 0, 3, 0, 1, 0, 0, 0,
];

// 1 at (0, 1), 1 at (1, 1), 1 at (2, 0).
pub(crate) const B: [u8; 32] = [
    82, 86, 77, 1, 0, 2, 3, 0, 0, 0, 1, 0, 1, 0, 0, 0, 1, 0, 1, 0, 1, 0, 0, 0, 2, 0, 0, 0, 1, 0, 0,
    0,
];

// 1 at (0, 2), 1 at (1, 3), 10 and 8 at (2, 0).
pub(crate) const C: [u8; 40] = [
    82, 86, 77, 1, 0, 2, 4, 0, 0, 0, 2, 0, 1, 0, 0, 0, 1, 0, 3, 0, 1, 0, 0, 0, 2, 0, 0, 0, 10, 0,
    0, 0, 2, 0, 0, 0, 8, 0, 0, 0,
];

// C with 10 and 9 in the third row.
pub(crate) const FAILING_C: [u8; 40] = [
    82, 86, 77, 1, 0, 2, 4, 0, 0, 0, 2, 0, 1, 0, 0, 0, 1, 0, 3, 0, 1, 0, 0, 0, 2, 0, 0, 0, 10, 0,
    0, 0, 2, 0, 0, 0, 9, 0, 0, 0,
];
