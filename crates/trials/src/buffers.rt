// A network with the buffers that it is lent.
use crate::histories::{Call, History};
use expressions::{CHAINS, Record, Step};
use network::{Draft, Plan, Sealed};
use refusals::Refusal;
use std::alloc::{AllocError, Global};

#[derive(Drop)]
pub(crate) struct Buffers {
    pub steps: Vec<Step>,
    pub records: Vec<Record>,
    pub heads: Vec<u32>,
    pub row: Vec<u32>,
    pub plan: Plan,
}

impl Buffers {
    // Buffers with room for so many records.
    pub(crate) fn new(heap: Global, records: usize) -> Result<Buffers, AllocError> {
        Ok(Buffers {
            steps: vec![in heap; Step::default(); 300]?,
            records: vec![in heap; Record::default(); records]?,
            heads: vec![in heap; 0; CHAINS]?,
            row: vec![in heap; 0; 32]?,
            plan: Plan::new(),
        })
    }

    pub(crate) fn seal(&mut self, draft: Draft) -> Result<Sealed, Refusal> {
        Ok(draft.seal(
            self.steps.as_slice(),
            self.records.as_mut_slice(),
            self.heads.as_mut_slice(),
            &mut self.plan,
        )?)
    }

    // Makes one of the calls on a draft.
    fn call(&mut self, mut draft: Draft, call: Call) -> Result<Draft, Refusal> {
        match call {
            Call::Add(from, to) => {
                draft.add(self.steps.as_mut_slice(), from, to)?;
            }
            Call::Retire(step) => draft.retire(self.steps.as_mut_slice(), step)?,
            Call::Restore(step) => draft.restore(self.steps.as_mut_slice(), step)?,
            Call::Seal => return Ok(self.seal(draft)?.reopen()),
        }
        Ok(draft)
    }

    // Makes the calls of a history.
    pub(crate) fn draw(&mut self, history: &History) -> Result<Draft, Refusal> {
        let mut draft = Draft::open(history.formats)?;
        for call in history.calls {
            draft = self.call(draft, *call)?;
        }
        Ok(draft)
    }

    // Writes the row of a source.
    pub(crate) fn trace(&mut self, sealed: &mut Sealed, source: usize) -> Result<(), Refusal> {
        engine::trace(
            sealed,
            self.steps.as_slice(),
            self.records.as_mut_slice(),
            self.heads.as_mut_slice(),
            self.row.as_mut_slice(),
            &self.plan,
            source,
        )
    }
}
