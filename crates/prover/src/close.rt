// The close of a pass: in small mode each answer comes with it.
ghost use Rattle.std.specs.Prelude.{◌≡◌, ◌≤◌, ◌<◌, true, []};
ghost use Rattle.item.specs.Start.{modulus_of};
ghost use Rattle.phase.specs.Order.{round_fits};
ghost use Rattle.prover.specs.declared.Reply.TheVariants as Reply;
ghost use Rattle.prover.specs.Records.{out, answered_step};
ghost use Rattle.prover.specs.Close.{total_step, message_step, ends_step, opening_step, changed_step, finished, closing, close_call, leaves_step, with_message, with_ends, in_mode};

use super::answers::{answered, refuse};
use super::formed::well_formed;
use super::{Reply, Run, Step};
use pass::formed::total_fits;
use pass::open::empty_pass;
use pass::{Pass, values};
use phase::{Kind, Mode, Next, order, turns};
use refusal::Refusal;
use vector::Message;

fn close_total(p: u32, run: Run, pass: Pass) -> Step
    ensures { result ≡ total_step p run pass }
{
    let next = order::round_or_ends(0, run.start.rounds);
    let shut = empty_pass(Kind::Shut);
    if run.start.plain {
        let total = pass.total;
        let claim = field::integer::image(p, total);
        let after = Run {
            next,
            total,
            claim,
            ..run
        };
        return answered(after, shut, Reply::Total(total));
    }
    let claim = pass.dot;
    answered(Run { next, claim, ..run }, shut, Reply::FieldTotal(claim))
}

// The message of the round, which the run keeps.
pub(crate) fn answer_message(run: Run, pass: Pass, m: Message) -> Step
    requires { run.round < 15 }
    ensures { result ≡ answered_step (with_message run m.even m.cross m.odd) pass (Reply.Message m.even m.cross m.odd) }
{
    let at = 3 * (run.round as usize);
    let mut messages = run.messages;
    messages[at] = m.even;
    messages[at + 1] = m.cross;
    messages[at + 2] = m.odd;
    let after = Run {
        next: Next::Challenge,
        messages,
        ..run
    };
    answered(after, pass, Reply::Message(m.even, m.cross, m.odd))
}

fn close_message(run: Run, pass: Pass) -> Step
    requires { run.round < 15 }
    ensures { result ≡ message_step run pass }
{
    let m = Message {
        even: pass.even,
        cross: pass.cross,
        odd: pass.odd,
    };
    answer_message(run, empty_pass(Kind::Shut), m)
}

// The end values, which the run keeps.
pub(crate) fn answer_ends(run: Run, pass: Pass, f: u32, g: u32) -> Step
    ensures { result ≡ answered_step (with_ends run f g) pass (Reply.Ends f g) }
{
    let after = Run {
        next: Next::Openings,
        fend: f,
        gend: g,
        ..run
    };
    answered(after, pass, Reply::Ends(f, g))
}

fn close_ends(run: Run, pass: Pass) -> Step
    ensures { result ≡ ends_step run pass }
{
    answer_ends(
        run,
        empty_pass(Kind::Shut),
        pass.fvalues[0],
        pass.gvalues[0],
    )
}

fn close_openings(run: Run, pass: Pass) -> Step
    ensures { result ≡ opening_step run pass }
{
    Step {
        run,
        pass: empty_pass(Kind::Shut),
        answer: Ok(Reply::Opening),
        values: values::values_of(pass.evals, run.start.rounds),
    }
}

pub(crate) fn in_mode(run: Run, mode: Mode) -> Run
    ensures { result ≡ in_mode run mode }
{
    Run { mode, ..run }
}

fn close_change(run: Run) -> Step
    ensures { result ≡ changed_step run }
{
    let full = in_mode(run, Mode::Full);
    answered(full, empty_pass(Kind::Shut), Reply::Changed)
}

fn finish(p: u32, run: Run, pass: Pass) -> Step
    requires { (round_fits run.next run.round run.start.rounds ≡ true) × (run.start.rounds ≤ 15) }
    ensures { out result [] [] ≡ leaves_step run pass (finished p run pass run.next) }
{
    match run.next {
        Next::Total => close_total(p, run, pass),
        Next::Message => close_message(run, pass),
        Next::Challenge => refuse(run, pass, Refusal::Order),
        Next::Ends => close_ends(run, pass),
        Next::Openings => close_openings(run, pass),
    }
}

fn close_kind(p: u32, run: Run, pass: Pass) -> Step
    requires { (round_fits run.next run.round run.start.rounds ≡ true) × (run.start.rounds ≤ 15) }
    ensures { out result [] [] ≡ leaves_step run pass (closing p run pass pass.kind) }
{
    match pass.kind {
        Kind::Shut => refuse(run, pass, Refusal::Order),
        Kind::Asked => finish(p, run, pass),
        Kind::Change => close_change(run),
    }
}

impl Run {
    // Ends the open pass with its answer. A refused total leaves the pass open.
    #[tactic(auto, using(crate::proofs::Branches::branches), unfolding(crate::specs::Close::close_call))]
    pub fn close(self, pass: Pass) -> Step
        ensures { out result [] [] ≡ leaves_step self pass (close_call (modulus_of self.start) self pass) }
    {
        let start = self.start;
        let p = item::modulus_of(start);
        let true = turns::item(well_formed(p, self, pass), pass.kind) else {
            return refuse(self, pass, Refusal::Order);
        };
        let true = order::all_taken(pass.taken, start.items) else {
            return refuse(self, pass, Refusal::Items);
        };
        let true = total_fits(p, self.next, start.plain, pass.total) else {
            return refuse(self, pass, Refusal::Total);
        };
        close_kind(p, self, pass)
    }
}
