// The current fold of both vectors in lent buffers: its message, and the fold that follows.
ghost use Rattle.std.specs.Prelude.{◌≡◌, ◌/◌};
ghost use Rattle.vector.specs.Slice.{message_in, message_slice, fold_slice};
ghost use Rattle.phase.specs.Level.{fold_at};

use super::Next;
use super::levels::fold_size;
use vector::Message;

// The message of the current fold; all zero where the places are not there.
pub fn message(p: u32, rounds: u32, round: u32, next: Next, f: &[u32], g: &[u32]) -> Message
    ensures { message_in result ≡ message_slice p (fold_at rounds round next / 2) f.now g.now }
{
    let pairs = (fold_size(rounds, round, next) / 2) as usize;
    vector::slice::message(p, f, g, pairs)
}

// Writes as many places as the new fold is long; nothing where those of the current one are not there.
pub fn fold(p: u32, c: u32, rounds: u32, round: u32, next: Next, v: &mut [u32])
    ensures { v.new ≡ fold_slice p c (fold_at rounds round next / 2) v.old }
{
    let half = (fold_size(rounds, round, next) / 2) as usize;
    vector::slice::fold(p, c, v, half)
}
