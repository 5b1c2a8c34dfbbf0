// The network that is open, and what a script does with it.
use crate::fault::Fault;
use crate::notation::Notation;
use crate::readings::Reading;
use crate::rooms::Rooms;
use expressions::{Record, Step};
use network::{Draft, NotSealed, Plan, Sealed};
use refusals::Buffer;
use std::alloc::Global;
use std::mem;

// Whether a network is open, and in which of its two states.
#[derive(Drop, Default)]
enum State {
    #[default]
    Closed,
    Draft(Draft),
    Sealed(Sealed),
}

impl State {
    // Why a command that needs another state is not carried out in this one.
    fn fault(&self) -> Fault {
        match self {
            State::Closed => Fault::NotOpen,
            State::Draft(_) => Fault::IsDraft,
            State::Sealed(_) => Fault::IsSealed,
        }
    }

    // Puts a state back that was taken out, and says why the command is not carried out in it.
    fn put_back(&mut self, state: State) -> Fault {
        *self = state;
        self.fault()
    }

    fn draft_mut(&mut self) -> Result<&mut Draft, Fault> {
        match self {
            State::Draft(draft) => Ok(draft),
            _ => Err(self.fault()),
        }
    }

    fn sealed(&self) -> Result<&Sealed, Fault> {
        match self {
            State::Sealed(sealed) => Ok(sealed),
            _ => Err(self.fault()),
        }
    }

    fn sealed_mut(&mut self) -> Result<&mut Sealed, Fault> {
        match self {
            State::Sealed(sealed) => Ok(sealed),
            _ => Err(self.fault()),
        }
    }

    // How many steps were added.
    fn step_count(&self) -> Result<usize, Fault> {
        match self {
            State::Closed => Err(self.fault()),
            State::Draft(draft) => Ok(draft.step_count()),
            State::Sealed(sealed) => Ok(sealed.step_count()),
        }
    }
}

// A network, with the buffers that it is lent, the plan that sealing writes, and how long other buffers are made.
#[derive(Drop)]
pub(crate) struct Network {
    heap: Global,
    rooms: Rooms,
    state: State,
    steps: Vec<Step>,
    records: Vec<Record>,
    heads: Vec<u32>,
    plan: Plan,
}

impl Network {
    // No network, until one is opened.
    pub(crate) fn closed(heap: Global, rooms: Rooms) -> Network {
        Network {
            heap,
            rooms,
            state: State::Closed,
            steps: Vec::new(heap),
            records: Vec::new(heap),
            heads: Vec::new(heap),
            plan: Plan::new(),
        }
    }

    // Chooses how long a buffer is made from then on.
    pub(crate) fn set_room(&mut self, buffer: Buffer, length: usize) {
        self.rooms.set(buffer, length);
    }

    // A draft of so many formats in place of what was open, unless it is refused.
    pub(crate) fn open(&mut self, formats: usize) -> Result<(), Fault> {
        let heap = self.heap;
        let rooms = self.rooms;
        *self = Network {
            heap,
            rooms,
            state: State::Draft(Draft::open(formats)?),
            steps: vec![in heap; Step::default(); rooms.steps]?,
            records: vec![in heap; Record::default(); rooms.records]?,
            heads: vec![in heap; 0; rooms.heads]?,
            plan: Plan::new(),
        };
        Ok(())
    }

    // Adds a step, and answers its number.
    pub(crate) fn add(&mut self, from: usize, to: usize) -> Result<usize, Fault> {
        let draft = self.state.draft_mut()?;
        Ok(draft.add(self.steps.as_mut_slice(), from, to)?)
    }

    pub(crate) fn retire(&mut self, step: usize) -> Result<(), Fault> {
        let draft = self.state.draft_mut()?;
        Ok(draft.retire(self.steps.as_mut_slice(), step)?)
    }

    pub(crate) fn restore(&mut self, step: usize) -> Result<(), Fault> {
        let draft = self.state.draft_mut()?;
        Ok(draft.restore(self.steps.as_mut_slice(), step)?)
    }

    // The steps that were added, in either state.
    pub(crate) fn steps(&self) -> Result<&[Step], Fault> {
        let added = self.state.step_count()?;
        Ok(self.steps.get(..added).unwrap_or(&[]))
    }

    // Seals the draft, and answers the size. A draft that is refused stays one.
    pub(crate) fn seal(&mut self) -> Result<(usize, usize), Fault> {
        let draft = match mem::take(&mut self.state) {
            State::Draft(draft) => draft,
            other => return Err(self.state.put_back(other)),
        };
        match draft.seal(
            self.steps.as_slice(),
            self.records.as_mut_slice(),
            self.heads.as_mut_slice(),
            &mut self.plan,
        ) {
            Ok(sealed) => {
                let size = sealed.size();
                self.state = State::Sealed(sealed);
                Ok(size)
            }
            Err(NotSealed { draft, refusal }) => {
                self.state = State::Draft(draft);
                Err(refusal.into())
            }
        }
    }

    pub(crate) fn reopen(&mut self) -> Result<(), Fault> {
        match mem::take(&mut self.state) {
            State::Sealed(sealed) => {
                self.state = State::Draft(sealed.reopen());
                Ok(())
            }
            other => Err(self.state.put_back(other)),
        }
    }

    // The components and the records.
    pub(crate) fn size(&self) -> Result<(usize, usize), Fault> {
        Ok(self.state.sealed()?.size())
    }

    // The records in use.
    pub(crate) fn records(&self) -> Result<&[Record], Fault> {
        let (_, count) = self.size()?;
        Ok(self.records.get(..count).unwrap_or(&[]))
    }

    pub(crate) fn plan(&self) -> Result<&Plan, Fault> {
        self.state.sealed()?;
        Ok(&self.plan)
    }

    // The row of a source: for each format, the record of the routes to it.
    pub(crate) fn trace(&mut self, source: usize) -> Result<Vec<u32>, Fault> {
        let mut row = vec![in self.heap; 0; self.rooms.row]?;
        let sealed = self.state.sealed_mut()?;
        engine::trace(
            sealed,
            self.steps.as_slice(),
            self.records.as_mut_slice(),
            self.heads.as_mut_slice(),
            row.as_mut_slice(),
            &self.plan,
            source,
        )?;
        row.truncate(sealed.formats());
        Ok(row)
    }

    // What the routes from a source come to in a reading, for each format.
    pub(crate) fn query<A: Notation>(
        &mut self,
        reading: &Reading<A>,
        source: usize,
    ) -> Result<Vec<A::Value>, Fault> {
        let algebra = &reading.algebra;
        let mut row = vec![in self.heap; 0; self.rooms.row]?;
        let weights = reading.lent(self.rooms.weights)?;
        let mut memo = vec![in self.heap; algebra.zero(); self.rooms.memo]?;
        let mut answers = vec![in self.heap; algebra.zero(); self.rooms.answers]?;
        let sealed = self.state.sealed_mut()?;
        engine::query(
            algebra,
            sealed,
            self.steps.as_slice(),
            self.records.as_mut_slice(),
            self.heads.as_mut_slice(),
            row.as_mut_slice(),
            weights.as_slice(),
            memo.as_mut_slice(),
            answers.as_mut_slice(),
            &self.plan,
            source,
        )?;
        answers.truncate(sealed.formats());
        Ok(answers)
    }
}
