// 10: whose turn it is, of records that calls returned (`well`).
ghost use Rattle.std.specs.Prelude.{◌≡◌};
ghost use Rattle.phase.specs.Turn.{pass_turn, point_turn, change_turn, return_turn, item_turn, full_turn, opening_turn, challenge_turn, proof_turn};

use super::{Kind, Mode, Next, order};

// A pass for what is next is opened.
pub fn pass(well: bool, mode: Mode, next: Next) -> bool
    ensures { result ≡ pass_turn well mode next }
{
    well && mode == Mode::Small && order::open_next(next)
}

// A pass for the openings at a point is opened.
pub fn point(well: bool, mode: Mode, next: Next, rounds: u32) -> bool
    ensures { result ≡ point_turn well mode next rounds }
{
    well && mode == Mode::Small && order::openings_at(next, rounds)
}

// Small, before a later pass.
pub fn change(well: bool, mode: Mode, next: Next, rounds: u32) -> bool
    ensures { result ≡ change_turn well mode next rounds }
{
    well && mode == Mode::Small && order::change_at(next, rounds)
}

// Full, before what would be a later pass of small mode.
pub fn back(well: bool, mode: Mode, next: Next, rounds: u32) -> bool
    ensures { result ≡ return_turn well mode next rounds }
{
    well && mode == Mode::Full && order::change_at(next, rounds)
}

// A pass is open.
pub fn item(well: bool, kind: Kind) -> bool
    ensures { result ≡ item_turn well kind }
{
    well && kind != Kind::Shut
}

// What is wanted of a full run is next.
pub fn full_next(well: bool, mode: Mode, wanted: Next, next: Next) -> bool
    ensures { result ≡ full_turn well mode wanted next }
{
    well && mode == Mode::Full && wanted == next
}

// Openings of a full run are next, and there are rounds to open.
pub fn opening(well: bool, mode: Mode, next: Next, rounds: u32) -> bool
    ensures { result ≡ opening_turn well mode next rounds }
{
    well && mode == Mode::Full && order::openings_at(next, rounds)
}

pub fn challenge(well: bool, next: Next) -> bool
    ensures { result ≡ challenge_turn well next }
{
    well && next == Next::Challenge
}

// A plain run whose ends were given.
pub fn proof(well: bool, plain: bool, next: Next) -> bool
    ensures { result ≡ proof_turn well plain next }
{
    well && plain && next == Next::Openings
}
