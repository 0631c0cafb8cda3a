// What comes next, and what may open, close and change.
ghost use Rattle.std.specs.Prelude.{◌≡◌, eqb, ltb};
ghost use Rattle.phase.specs.Order.{round_or_ends, round_fits, pass_next, change_next, kind_fits, open_next, change_at, openings_at};

use super::{Kind, Mode, Next};

// After the total, and after a challenge.
pub fn round_or_ends(round: u32, rounds: u32) -> Next
    ensures { result ≡ round_or_ends round rounds }
{
    if round < rounds {
        return Next::Message;
    }
    Next::Ends
}

// The number of challenges fits what is next.
pub fn round_fits(next: Next, round: u32, rounds: u32) -> bool
    ensures { result ≡ round_fits next round rounds }
{
    match next {
        Next::Total => round == 0,
        Next::Message | Next::Challenge => round < rounds,
        Next::Ends | Next::Openings => round == rounds,
    }
}

// Where a pass may be open.
fn pass_next(next: Next) -> bool
    ensures { result ≡ pass_next next }
{
    next != Next::Challenge
}

// Where a change may be open.
fn change_next(next: Next) -> bool
    ensures { result ≡ change_next next }
{
    matches!(next, Next::Message | Next::Ends | Next::Openings)
}

// A pass is open in small mode only.
pub fn kind_fits(kind: Kind, mode: Mode, next: Next) -> bool
    ensures { result ≡ kind_fits kind mode next }
{
    match kind {
        Kind::Shut => true,
        Kind::Asked => mode == Mode::Small && pass_next(next),
        Kind::Change => mode == Mode::Small && change_next(next),
    }
}

// What open opens a pass for.
pub fn open_next(next: Next) -> bool
    ensures { result ≡ open_next next }
{
    matches!(next, Next::Total | Next::Message | Next::Ends)
}

pub fn change_at(next: Next, rounds: u32) -> bool
    ensures { result ≡ change_at next rounds }
{
    match next {
        Next::Total | Next::Challenge => false,
        Next::Message | Next::Ends => true,
        Next::Openings => 0 < rounds,
    }
}

// Openings are next, and there are rounds to open.
pub fn openings_at(next: Next, rounds: u32) -> bool
    ensures { result ≡ openings_at next rounds }
{
    next == Next::Openings && 0 < rounds
}

// 8: an item is wanted.
pub fn item_wanted(taken: u32, items: u32) -> bool
    ensures { result ≡ ltb taken items }
{
    taken < items
}

// 8: no item is wanting.
pub fn all_taken(taken: u32, items: u32) -> bool
    ensures { result ≡ eqb taken items }
{
    taken == items
}
