// The starts of a run.
ghost use Rattle.std.specs.Prelude.{◌≡◌, []};
ghost use Rattle.field.specs.Modulus.{modulus};
ghost use Rattle.item.specs.Start.{untwisted_start};
ghost use Rattle.prover.specs.Records.{out, refused_step, refused_at_step};
ghost use Rattle.prover.specs.Start.{fresh_run, openings_run, zero_run, zero_pass, started, start_leaves, start_plain, start_twisted, start_rule, start_openings};

use super::answers::{answered, refuse};
use super::{Reply, Run, Step, StepOr};
use field::Field;
use item::version::version_fits;
use item::{Start, starts};
use pass::open::empty_pass;
use phase::{Kind, Mode, Next};
use refusal::Refusal;

// A run that has given and taken nothing.
fn fresh(start: Start) -> Run
    ensures { result ≡ fresh_run start }
{
    Run {
        start,
        mode: Mode::Small,
        next: Next::Total,
        round: 0,
        challenges: [0u32; 15],
        messages: [0u32; 45],
        total: 0,
        claim: 0,
        fend: 0,
        gend: 0,
    }
}

fn answer(start: Start) -> Step
    ensures { out result [] [] ≡ started (fresh_run start) }
{
    answered(fresh(start), empty_pass(Kind::Shut), Reply::Started)
}

// The run of a batch, whose openings are next.
fn opens(items: u32, challenges: &[u32]) -> Step
    ensures { out result [] [] ≡ started (openings_run (untwisted_start items) challenges.now) }
{
    let start = starts::untwisted(items);
    let run = Run {
        next: Next::Openings,
        round: start.rounds,
        challenges: vector::slice::take15(challenges, start.rounds as usize),
        ..fresh(start)
    };
    answered(run, empty_pass(Kind::Shut), Reply::Started)
}

// A refused start hands back zeros and what its caller refuses it by, as a row of the table or a number.
pub fn no_run<E>(refusal: E) -> StepOr<E>
    ensures { result ≡ refused_step zero_run zero_pass refusal }
{
    refuse(fresh(starts::none()), empty_pass(Kind::Shut), refusal)
}

// The same by a number and the index of what is at fault.
pub fn no_run_at(number: u8, index: u32) -> StepOr<(u8, Option<u32>)>
    ensures { result ≡ refused_at_step zero_run zero_pass number index }
{
    no_run((number, Some(index)))
}

impl Run {
    // The version is that of the readings to come.
    #[tactic(auto, using(crate::proofs::Branches::branches), unfolding(crate::specs::Start::start_plain))]
    pub fn start_plain(items: u32, version: u32) -> Step
        ensures { out result [] [] ≡ start_leaves (start_plain items version) }
    {
        let true = version_fits(version) else {
            return no_run(Refusal::Version);
        };
        let true = starts::count_fits(items) else {
            return no_run(Refusal::Count);
        };
        answer(starts::plain(items, version))
    }

    #[tactic(auto, using(crate::proofs::Branches::branches), unfolding(crate::specs::Start::start_twisted))]
    pub fn start_twisted(items: u32, twists: &[u32]) -> Step
        ensures { out result [] [] ≡ start_leaves (start_twisted modulus items twists.now) }
    {
        let true = starts::count_fits(items) else {
            return no_run(Refusal::Count);
        };
        let rounds = vector::sizes::rounds_of(items);
        let true = starts::list_fits(field::modulus(), rounds, twists) else {
            return no_run(Refusal::Argument);
        };
        answer(starts::twisted(items, twists))
    }

    // The run of a rule check: all 2^n items, twisted by the powers of v.
    #[tactic(auto, using(crate::proofs::Branches::branches), unfolding(crate::specs::Start::start_rule))]
    pub fn start_rule(rounds: u32, v: u32) -> Step
        ensures { out result [] [] ≡ start_leaves (start_rule modulus rounds v) }
    {
        let true = starts::rounds_fit(rounds) else {
            return no_run(Refusal::Count);
        };
        let p = field::modulus();
        let Some(x) = Field::nonzero_in(p, v) else {
            return no_run(Refusal::Argument);
        };
        answer(starts::rule(p, rounds, u32::from(x)))
    }

    // The run of a batch: its challenges are handed in, and its openings are next.
    #[tactic(auto, using(crate::proofs::Branches::branches), unfolding(crate::specs::Start::start_openings))]
    pub fn start_openings(items: u32, challenges: &[u32]) -> Step
        ensures { out result [] [] ≡ start_leaves (start_openings modulus items challenges.now) }
    {
        let true = starts::count_fits(items) else {
            return no_run(Refusal::Count);
        };
        let rounds = vector::sizes::rounds_of(items);
        let true = 0 < rounds else {
            return no_run(Refusal::Order);
        };
        let true = starts::list_fits(field::modulus(), rounds, challenges) else {
            return no_run(Refusal::Argument);
        };
        opens(items, challenges)
    }
}
