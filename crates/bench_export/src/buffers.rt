// A network's buffers, and rounds of calls on them. They are arrays, since a caller in another language hands over no allocator.
use crate::checksum::Checksum;
use crate::noise::Noise;
use algebras::Cost;
use expressions::{CHAINS, MOST_RECORDS, Record, Step};
use network::{Draft, Plan, Sealed};
use refusals::Refusal;

const FORMATS: usize = 32;

const STEPS: usize = 256;

#[derive(Drop)]
pub(crate) struct Buffers {
    steps: [Step; STEPS],
    records: [Record; MOST_RECORDS],
    heads: [u32; CHAINS],
    pub(crate) row: [u32; FORMATS],
    weights: [u32; STEPS],
    memo: [u32; MOST_RECORDS],
    pub(crate) answers: [u32; FORMATS],
    plan: Plan,
}

impl Buffers {
    pub(crate) fn new() -> Buffers {
        Buffers {
            steps: [Step::default(); STEPS],
            records: [Record::default(); MOST_RECORDS],
            heads: [0; CHAINS],
            row: [0; FORMATS],
            weights: [0; STEPS],
            memo: [0; MOST_RECORDS],
            answers: [0; FORMATS],
            plan: Plan::new(),
        }
    }

    // Adds as many steps as there are weights, and gives each a cost.
    fn draw(&mut self, draft: &mut Draft, noise: &mut Noise) -> Result<(), Refusal> {
        for weight in self.weights.iter_mut() {
            let from = noise.draw() as usize % FORMATS;
            let to = noise.draw() as usize % FORMATS;
            draft.add(&mut self.steps, from, to)?;
            *weight = noise.draw();
        }
        Ok(())
    }

    // Draws the network of a seed, and seals it.
    fn start(&mut self, seed: u64) -> Result<Sealed, Refusal> {
        let mut draft = Draft::open(FORMATS)?;
        self.draw(&mut draft, &mut Noise::new(seed))?;
        self.seal(draft)
    }

    pub(crate) fn seal(&mut self, draft: Draft) -> Result<Sealed, Refusal> {
        Ok(draft.seal(
            &self.steps,
            &mut self.records,
            &mut self.heads,
            &mut self.plan,
        )?)
    }

    pub(crate) fn trace(&mut self, sealed: &mut Sealed, source: usize) -> Result<(), Refusal> {
        engine::trace(
            sealed,
            &self.steps,
            &mut self.records,
            &mut self.heads,
            &mut self.row,
            &self.plan,
            source,
        )
    }

    pub(crate) fn query(&mut self, sealed: &mut Sealed, source: usize) -> Result<(), Refusal> {
        engine::query(
            &Cost,
            sealed,
            &self.steps,
            &mut self.records,
            &mut self.heads,
            &mut self.row,
            &self.weights,
            &mut self.memo,
            &mut self.answers,
            &self.plan,
            source,
        )
    }

    // The records in use.
    fn records(&self, sealed: &Sealed) -> &[Record] {
        let (_, count) = sealed.size();
        self.records.get(..count).unwrap_or(&[])
    }

    // Runs rounds of a call on the network of a seed, from each source in turn, and answers a checksum of all that they made. The call
    // gives back the network, and adds what it made to the checksum.
    pub(crate) fn measure<F>(&mut self, rounds: u64, seed: u64, call: F) -> Result<u64, Refusal>
    where
        F: Fn(&mut Buffers, Sealed, usize, &mut Checksum) -> Result<Sealed, Refusal>,
        requires { F.IsAlwaysCallable call }
    {
        let mut sum = Checksum::new();
        let mut sealed = self.start(seed)?;
        for round in 0..rounds {
            let source = (round % FORMATS as u64) as usize;
            sealed = call(self, sealed, source, &mut sum)?;
        }
        sum.add_records(self.records(&sealed));
        Ok(sum.value())
    }
}
