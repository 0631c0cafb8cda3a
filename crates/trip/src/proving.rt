// A whole run of the prover, each of its steps in the mode of its letter.
ghost use Rattle.std.specs.Prelude.{◌≡◌};
ghost use Rattle.vector.specs.Slice.{overwrite};
ghost use Rattle.item.specs.Item.{parts_of};
ghost use Rattle.item.specs.declared.Given.TheVariants as Given;
ghost use Rattle.field.specs.Modulus.{modulus};
ghost use Rattle.vector.specs.Power.{size_in32};
ghost use Rattle.trip.specs.Items.{zero_pair, or_zero, pair_at, f_at, g_at};

use super::failure::Failure;
use super::{input, modes};
use item::{Given, Item, Start};
use phase::{Mode, Next};
use prover::{Reply, Run, Step};
use vector::slice::write;
use wire::log::Head;

// What a host holds while a run goes on: the trip's files, the letters of the steps, and the buffers that it lends.
#[derive(Drop)]
pub(crate) struct Session<'a> {
    pub(crate) log: &'a [u8],
    pub(crate) numbers: &'a [u8],
    pub(crate) letters: &'a [u8],
    pub(crate) f: [u32; 4096],
    pub(crate) g: [u32; 4096],
}

impl Session<'_> {
    // The last step of a run that gave its ends, and its opening where n is not 0.
    pub(crate) fn prove(&mut self, head: Head) -> Result<Step, Failure> {
        let mut step = self.pass(Run::start_plain(head.count, head.version));
        let Ok(Reply::Total(_)) = step.answer else {
            return finished(step);
        };
        let rounds = step.run.start.rounds;
        for _ in 0..rounds {
            step = self.answer(step);
            step = self.challenge(step);
        }
        step = self.answer(step);
        if rounds == 0 {
            return finished(step);
        }
        finished(self.open(step))
    }

    fn challenge(&mut self, step: Step) -> Step {
        let challenge = input::number(self.numbers, step.run.round);
        step.run
            .challenge(step.pass, challenge, &mut self.f, &mut self.g)
    }

    // The next message, or the ends.
    fn answer(&mut self, before: Step) -> Step {
        let step = self.change_mode(before);
        if is_small(&step) {
            return self.pass(step);
        }
        match step.run.next {
            Next::Message => step.run.message(step.pass, &self.f, &self.g),
            _ => step.run.ends(step.pass, &self.f, &self.g),
        }
    }

    fn open(&mut self, before: Step) -> Step {
        let step = self.change_mode(before);
        let point = input::number(self.numbers, step.run.start.rounds);
        if is_small(&step) {
            return self.give_items(step.run.open_at(step.pass, point));
        }
        lend(step.run.start, self.log, &mut self.f, &mut self.g);
        step.run.opening(step.pass, point, &self.f, &self.g)
    }

    // To the mode of the next step.
    fn change_mode(&mut self, step: Step) -> Step {
        match (
            is_small(&step),
            modes::full_at(self.letters, next_step(&step.run)),
        ) {
            (true, true) => {
                let opened = step.run.to_full(step.pass, &mut self.f, &mut self.g);
                self.give_items(opened)
            }
            (false, false) => step.run.to_small(step.pass),
            _ => step,
        }
    }

    // A whole pass for what is next.
    fn pass(&mut self, step: Step) -> Step {
        self.give_items(step.run.open_pass(step.pass))
    }

    // Every item in one block, and the close.
    fn give_items(&mut self, opened: Step) -> Step {
        let items = input::items_of(self.log);
        let given = opened
            .run
            .items(opened.pass, items, &mut self.f, &mut self.g);
        given.run.close(given.pass)
    }
}

// The last call of a run is answered only where all before it were.
fn finished(step: Step) -> Result<Step, Failure> {
    match step.answer? {
        Reply::Ends(_, _) | Reply::Opening => Ok(step),
        _ => Err(Failure::Rejected),
    }
}

// The steps of a run: its rounds, the ends, the openings.
fn next_step(run: &Run) -> usize {
    match run.next {
        Next::Openings => run.start.rounds as usize + 1,
        _ => run.round as usize,
    }
}

fn is_small(step: &Step) -> bool {
    step.run.mode == Mode::Small
}

// Fold 0, lent again for the openings.
fn lend(start: Start, log: &[u8], f: &mut [u32], g: &mut [u32])
    ensures { (f.new ≡ overwrite (f_at start log.now) (size_in32 start.rounds 0) f.old) × (g.new ≡ overwrite (g_at start log.now) (size_in32 start.rounds 0) g.old) }
{
    for i in 0..vector::sizes::size_of(start.rounds, 0) {
        let item = item_at(start, log, i);
        write(f, i as usize, item.f);
        write(g, i as usize, item.g);
    }
}

// Item i of both vectors; past the log's items it is a zero pair.
#[tactic(auto, unfolding(crate::specs::Items::pair_at))]
fn item_at(start: Start, log: &[u8], i: u32) -> Item
    ensures { result ≡ pair_at modulus start log.now i }
{
    match wire::log::log_item(log, i) {
        Some(item) => pair(start, i, item.reading, item.weight),
        None => no_item(),
    }
}

fn pair(start: Start, i: u32, reading: i32, weight: u16) -> Item
    ensures { result ≡ or_zero (parts_of modulus start i (Given.Reading reading weight)) }
{
    item::parts_of(field::modulus(), start, i, Given::Reading(reading, weight)).unwrap_or(no_item())
}

fn no_item() -> Item
    ensures { result ≡ zero_pair }
{
    Item {
        f: 0,
        g: 0,
        worth: 0,
    }
}
