// The number of rounds, and the sizes of the folds.
ghost use Rattle.std.specs.Prelude.{◌≡◌};
ghost use Rattle.vector.specs.Rounds.{rounds_of};
ghost use Rattle.vector.specs.Power.{size_in32};

// The bits of a u32.
const WIDTH: u32 = 32;

// n of L: the width less the leading zeros of L - 1. L = 1 is apart, and 0, which no call brings, goes with it.
pub fn rounds_of(items: u32) -> u32
    ensures { result ≡ rounds_of items }
{
    if items <= 1 {
        return 0;
    }
    WIDTH - u32::leading_zeros(items - 1)
}

// How many items fold j of 2^n items has.
#[tactic(auto, using(crate::proofs::FoldSizes::large, crate::proofs::FoldSizes::past, crate::proofs::FoldSizes::shifted))]
pub fn size_of(n: u32, j: u32) -> u32
    ensures { result ≡ size_in32 n j }
{
    if 31 < n {
        return 0;
    }
    if n < j {
        return 0;
    }
    1u32 << (n - j)
}
