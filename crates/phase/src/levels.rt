// The fold that a pass or a full-mode call works on.
ghost use Rattle.std.specs.Prelude.{◌≡◌};
ghost use Rattle.phase.specs.Level.{level_at, fold_at, padding_of};

use super::{Kind, Next};

// The level that a pass folds to.
pub fn level_of(rounds: u32, round: u32, next: Next, kind: Kind) -> u32
    ensures { result ≡ level_at rounds round next kind }
{
    match next {
        Next::Total => 0,
        // An arm each: an edit has the message's alone.
        Next::Message => round,
        Next::Challenge => round,
        Next::Ends => rounds,
        // Shut and Change too: an edit of each has to be refused.
        Next::Openings => match kind {
            Kind::Shut => 0,
            Kind::Asked => rounds,
            Kind::Change => 0,
        },
    }
}

// How long the current fold is.
pub fn fold_size(rounds: u32, round: u32, next: Next) -> u32
    ensures { result ≡ fold_at rounds round next }
{
    vector::sizes::size_of(rounds, level_of(rounds, round, next, Kind::Shut))
}

// The padding, which a pass takes by itself.
pub fn padding_of(items: u32, rounds: u32) -> u32
    ensures { result ≡ padding_of items rounds }
{
    let size = vector::sizes::size_of(rounds, 0);
    size.saturating_sub(items)
}
