// The proof file: a close with its total, every message, the end values and the verdict in one call.
ghost use Rattle.std.specs.Prelude.{◌≡◌, ◌≤◌, ◌<◌, length};
ghost use Rattle.refusal.specs.Outcome.{answered, refused};
ghost use Rattle.refusal.specs.Refusal.{number_of};
ghost use Rattle.wire.specs.Proof.{proof_rounds, proof_size, message_end};
ghost use Rattle.verifier.specs.Claims.{failed_now};
ghost use Rattle.verifier.specs.ProofFile.{file_message, hears_next, hears_first, compares, judges, judged_in, leaves_judged};

use super::{Judged, Verdict, Verifier, messages};
use refusal::Refusal;

// A refusal hands the verifier back unchanged; none of a proof has an index.
pub fn refuse(v: Verifier, refusal: Refusal) -> Judged
    ensures { judged_in result ≡ leaves_judged v (refused (number_of refusal)) }
{
    Judged {
        verifier: v,
        verdict: Verdict::Refused(refusal.number()),
    }
}

// One message of the file more; after a no, none is heard.
#[tactic(auto, unfolding(crate::specs::ProofFile::hears_next))]
fn hear_next(p: u32, v: Verifier, file: &[u8], round: u32) -> Verifier
    requires { (v.round < 15) × (message_end round ≤ length file.now) }
    ensures { result ≡ hears_next p v (file_message file.now round) }
{
    if v.failed {
        return v;
    }
    let Some(message) = wire::proof::proof_message(file, round) else {
        // Not reached: the file has the message.
        return v;
    };
    messages::hear(p, v, message).verifier
}

fn hear_all(p: u32, v: Verifier, file: &[u8]) -> Verifier
    requires { (v.round ≡ 0) × (v.start.rounds ≤ 15) × (proof_size v.start.rounds ≤ length file.now) }
    ensures { result ≡ hears_first p v (file_message file.now) v.start.rounds }
{
    let mut heard = v;
    for k in 0..v.start.rounds {
        heard = hear_next(p, heard, file, k);
    }
    heard
}

// The end values of the file must be the verifier's own.
#[tactic(auto, unfolding(crate::specs::Claims::failed_now))]
fn compare(v: Verifier, file: &[u8]) -> Verifier
    requires { (proof_rounds file.now ≡ v.start.rounds) × (proof_size v.start.rounds ≤ length file.now) }
    ensures { result ≡ compares v file.now }
{
    let Some(ends) = wire::proof::proof_ends(file) else {
        // Not reached: the file has its end values.
        return v;
    };
    if claim::ends_own(ends.f, ends.g, v.fsum, v.gsum) {
        v
    } else {
        Verifier { failed: true, ..v }
    }
}

pub(crate) fn judge(p: u32, v: Verifier, total: i64, file: &[u8]) -> Judged
    requires { (v.round ≡ 0) × (v.start.rounds ≤ 15) × (proof_rounds file.now ≡ v.start.rounds) × (proof_size v.start.rounds ≤ length file.now) }
    ensures { judged_in result ≡ leaves_judged v (answered (judges p v total file.now)) }
{
    let claim = field::integer::image(p, total);
    let closed = messages::close(v, claim);
    let heard = hear_all(p, closed.verifier, file);
    let verifier = compare(heard, file);
    let verdict = messages::find(p, verifier);
    Judged { verifier, verdict }
}
