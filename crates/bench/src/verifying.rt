// The verifier's pass: both end values.
ghost use Rattle.std.specs.Prelude.{◌≡◌, length};

use super::log;
use records::parts::first;
use verifier::Verifier;

pub(crate) fn end_values(items: u32, block: &[u8]) -> u64 {
    let challenges = challenges();
    let rounds = vector::sizes::rounds_of(items) as usize;
    let v = Verifier::start_plain(items, 1, first(rounds, &challenges)).verifier;
    let taken = v.items(block).verifier;
    (taken.fsum as u64) + (taken.gsum as u64)
}

fn challenges() -> [u32; 15]
    ensures { 15 ≡ length result }
{
    let mut out = [0u32; 15];
    for k in 0..15 {
        out[k as usize] = log::challenge(k);
    }
    out
}
