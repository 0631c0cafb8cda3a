// The run of the batch, in small mode and in full mode.
use super::failure::Failure;
use super::logs::{self, CHILLED, DRY, FROZEN, LOGS, POINT, Z};
use prover::{Reply, Step};

// With the buffers that are lent to its calls.
#[derive(Clone, Copy)]
pub(crate) struct Batch {
    step: Step,
    f: [u32; 4],
    g: [u32; 4],
}

impl Batch {
    pub(crate) fn begin() -> Batch {
        Batch {
            step: logs::begin(LOGS, [&FROZEN, &CHILLED, &DRY], Z),
            f: [0; 4],
            g: [0; 4],
        }
    }

    // By a pass in small mode.
    pub(crate) fn open_small(&mut self) -> Result<[u32; 6], Failure> {
        self.step = self.step.run.open_at(self.step.pass, POINT);
        self.give_items();
        self.values()
    }

    // From the buffers in full mode.
    pub(crate) fn open_full(&mut self) -> Result<[u32; 6], Failure> {
        self.step = self
            .step
            .run
            .opening(self.step.pass, POINT, &self.f, &self.g);
        self.values()
    }

    pub(crate) fn change_to_full(&mut self) {
        self.step = self
            .step
            .run
            .to_full(self.step.pass, &mut self.f, &mut self.g);
        self.give_items();
    }

    pub(crate) fn return_to_small(&mut self) {
        self.step = self.step.run.to_small(self.step.pass);
    }

    // The six of the combined vector that an opening answers.
    fn values(&self) -> Result<[u32; 6], Failure> {
        let Reply::Opening = self.step.answer? else {
            return Err(Failure::Other);
        };
        let [a, b, c, d, e, f, ..] = self.step.values;
        Ok([a, b, c, d, e, f])
    }

    // A pass that is open, from the last item down, and its close.
    fn give_items(&mut self) {
        for i in (0..4).rev() {
            self.step = self
                .step
                .run
                .field_item(self.step.pass, logs::item(i), 0, &mut self.f, &mut self.g);
        }
        self.step = self.step.run.close(self.step.pass);
    }
}
