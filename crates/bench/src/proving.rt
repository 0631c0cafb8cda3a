// A whole run of the prover, in small mode or changing right after its total.
use super::log;
use prover::{Run, Step};
use records::parts::within;

// What a host holds while a run goes on: the log's items, the mode, and the buffers that it lends.
#[derive(Drop)]
pub(crate) struct Session<'a> {
    pub(crate) block: &'a [u8],
    pub(crate) full: bool,
    pub(crate) f: &'a mut [u32],
    pub(crate) g: &'a mut [u32],
}

impl Session<'_> {
    pub(crate) fn prove(&mut self, items: u32) -> u64 {
        let mut step = self.begin(items);
        for _ in 0..step.run.start.rounds {
            step = self.message(step);
            step = self.challenge(step);
        }
        worth(self.finish(step))
    }

    // The total, and the change.
    fn begin(&mut self, items: u32) -> Step {
        let total = self.pass(Run::start_plain(items, 1));
        if !self.full {
            return total;
        }
        let opened = total.run.to_full(total.pass, self.f, self.g);
        self.give(opened)
    }

    fn message(&mut self, step: Step) -> Step {
        if self.full {
            self.message_from_buffers(step)
        } else {
            self.pass(step)
        }
    }

    // The calls that read the buffers stand apart: both are lent at once from behind `&self` alone.
    fn message_from_buffers(&self, step: Step) -> Step {
        step.run.message(step.pass, self.f, self.g)
    }

    fn ends_from_buffers(&self, step: Step) -> Step {
        step.run.ends(step.pass, self.f, self.g)
    }

    fn open_from_buffers(&self, step: Step) -> Step {
        step.run.opening(step.pass, log::POINT, self.f, self.g)
    }

    fn challenge(&mut self, step: Step) -> Step {
        let challenge = log::challenge(step.run.round);
        step.run.challenge(step.pass, challenge, self.f, self.g)
    }

    // The ends and the openings.
    fn finish(&mut self, folded: Step) -> Step {
        if !self.full {
            let ended = self.pass(folded);
            return self.give(ended.run.open_at(ended.pass, log::POINT));
        }
        let ended = self.ends_from_buffers(folded);
        self.lend(ended.run);
        self.open_from_buffers(ended)
    }

    fn pass(&mut self, step: Step) -> Step {
        self.give(step.run.open_pass(step.pass))
    }

    // The items of an open pass, and its close.
    fn give(&mut self, opened: Step) -> Step {
        let given = opened.run.items(opened.pass, self.block, self.f, self.g);
        given.run.close(given.pass)
    }

    // Fold 0, lent again for the openings.
    fn lend(&mut self, run: Run) {
        let items = wire::block::items_in(run.start.version, self.block);
        let n = within(items, self.f);
        let m = within(items, self.g);
        let p = item::modulus_of(run.start);
        wire::block::pairs(
            p,
            run.start.version,
            self.block,
            0,
            &mut self.f[..n],
            &mut self.g[..m],
        );
        let size = vector::sizes::size_of(run.start.rounds, 0) as usize;
        pad(items, size, self.f);
        pad(items, size, self.g);
    }
}

fn pad(items: usize, size: usize, places: &mut [u32]) {
    for place in places.iter_mut().take(size).skip(items) {
        *place = 0;
    }
}

// A run holds what it answered; the openings' values stand beside it.
fn worth(step: Step) -> u64 {
    let run = step.run;
    let ends = u64::from(run.fend) + u64::from(run.gend);
    run.total
        .cast_unsigned()
        .wrapping_add(ends)
        .wrapping_add(sum(&run.messages))
        .wrapping_add(sum(&step.values))
}

fn sum(numbers: &[u32]) -> u64 {
    numbers
        .iter()
        .fold(0, |sum: u64, x| sum.wrapping_add(u64::from(*x)))
}
