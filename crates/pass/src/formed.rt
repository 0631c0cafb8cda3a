// The test for records that no call returns, and the test of a total.
ghost use Rattle.std.specs.Prelude.{◌≡◌};
ghost use Rattle.pass.specs.Formed.{turn_formed, pass_formed, total_within};

use super::Pass;
use item::Start;
use item::starts::version_kept;
use phase::{Mode, Next, order};

// The largest product of a reading and a weight, of either version.
const MAX_WORTH: u64 = 1440000000;

// Of a run: what its start fixed, what is next, the round and the kept total.
#[tactic(auto, unfolding(crate::specs::Formed::turn_formed))]
pub fn turn_formed(p: u32, start: Start, next: Next, round: u32, total: i64) -> bool
    ensures { result ≡ turn_formed p start next round total }
{
    version_kept(start.plain, start.version)
        && start.items >= 1
        && start.items <= refusal::MAX_ITEMS
        && start.rounds == vector::sizes::rounds_of(start.items)
        && order::round_fits(next, round, start.rounds)
        && field::total::within(p, total)
}

// Of a pass, beside L, the mode and what is next of its run.
#[tactic(auto, unfolding(crate::specs::Formed::pass_formed))]
pub fn pass_formed(items: u32, mode: Mode, next: Next, pass: Pass) -> bool
    ensures { result ≡ pass_formed items mode next pass }
{
    order::kind_fits(pass.kind, mode, next)
        && pass.taken <= items
        && pass.fcount == pass.gcount
        && pass.fcount <= (refusal::MAX_ROUNDS as usize)
        && field::integer::magnitude(pass.total) <= (pass.taken as u64) * MAX_WORTH
}

// 7: a plain total within its limits.
pub fn total_fits(p: u32, next: Next, plain: bool, total: i64) -> bool
    ensures { result ≡ total_within p next plain total }
{
    next != Next::Total || !plain || field::total::within(p, total)
}
