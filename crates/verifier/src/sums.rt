// The running end values: each item times the weight of its index.
ghost use Rattle.std.specs.Prelude.{◌≡◌, ◌≤◌, ◌<◌};
ghost use Rattle.refusal.specs.Outcome.{answered};
ghost use Rattle.verifier.specs.Records.{step_in, leaves};
ghost use Rattle.verifier.specs.Sums.{takes};

use super::{Reply, Step, Verifier};
use item::Item;

pub(crate) fn take(p: u32, v: Verifier, x: Item) -> Step
    requires { (v.taken < 32768) × (v.start.rounds ≤ 15) }
    ensures { step_in result ≡ leaves v (answered (takes p v x)) }
{
    let weight = vector::weight::weight_of(p, v.challenges, v.start.rounds, v.taken);
    let f = item::enters_as(p, v.start, v.taken, x.f);
    let verifier = Verifier {
        taken: v.taken + 1,
        fsum: field::modular::add_mul(p, v.fsum, f, weight),
        gsum: field::modular::add_mul(p, v.gsum, x.g, weight),
        ..v
    };
    Step {
        verifier,
        answer: Ok(Reply::Taken),
    }
}
