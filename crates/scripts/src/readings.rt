// The algebras in which a script reads chains and routes, with the weights of the steps.
ghost use Rattle.std.specs.Prelude.{◌≡◌, ◌≢◌, ℕ, ◌+◌, ◌<◌, OnOk, ◌-◌, ◌++◌, map, take, replicate, IfOk, slice_index_or, vec_len};
ghost use Rattle.kleene.specs.Algebras.{everywhere};
ghost use Rattle.kleene.specs.Chains.{comes_to};

use crate::command::{AlgebraName, Weight};
use crate::current::Network;
use crate::fault::Fault;
use crate::notation::{Notation, Shown};
use algebras::{Cost, Depth, Marks, Phase, Reach};
use kleene::Algebra;
use refusals::Refusal;
use std::alloc::{AllocError, Global};
use std::fmt;
use std::fmt::Write;

// An algebra, with the weights of the steps in it. Each step past these weighs one.
#[derive(Drop)]
pub(crate) struct Reading<A: Notation> {
    pub algebra: A,
    weights: Vec<A::Value>,
}

// What the algebra is called.
impl<A: Notation> fmt::Display for Reading<A> {
    fn fmt<W: fmt::Write>(&self, f: &mut fmt::Formatter<W>) -> fmt::Result {
        self.algebra.title(f)
    }
}

impl<A: Notation> Reading<A> {
    fn new(heap: Global, algebra: A) -> Reading<A> {
        Reading {
            algebra,
            weights: Vec::new(heap),
        }
    }

    // Lists the weights up to a step.
    fn list_up_to(&mut self, step: u8) -> Result<(), AllocError>
        ensures listed { OnOk result (step < vec_len self.new.weights) }
        ensures carried { let weights = self.old.weights.items in OnOk result (self.new.weights.items ≡ weights ++ replicate (step + 1 - vec_len self.old.weights) (everywhere (A.meaning self.old.algebra)).one) }
        ensures algebra { self.new.algebra ≡ self.old.algebra }
    {
        let length = step as usize + 1;
        if self.weights.len() < length {
            self.weights.resize(length, self.algebra.one())?;
        }
        Ok(())
    }

    // Sets the weight of a step, and of no other.
    fn set(&mut self, step: u8, weight: A::Value) -> Result<(), AllocError>
        ensures step { let o = everywhere (A.meaning self.old.algebra) in OnOk result (slice_index_or self.new.weights.items step o.one ≡ weight) }
        ensures others { let o = everywhere (A.meaning self.old.algebra) in OnOk result ((j : ℕ) → j ≢ step → slice_index_or self.new.weights.items j o.one ≡ slice_index_or self.old.weights.items j o.one) }
        ensures algebra { self.new.algebra ≡ self.old.algebra }
    {
        self.list_up_to(step)?;
        self.weights[step as usize] = weight;
        Ok(())
    }

    // Sets the weight of a step, and says so.
    fn weigh(&mut self, out: &mut String, step: u8, weight: A::Value) -> Result<(), AllocError> {
        self.set(step, weight)?;
        writeln!(out, "weigh: step {step} {} {}", A::NAME, Shown::<A>(weight))
    }

    // The weight of a step.
    fn weight(&self, step: u8) -> A::Value
        ensures { result ≡ slice_index_or self.now.weights.items step (everywhere (A.meaning self.now.algebra)).one }
    {
        let weight = self.weights.get(step as usize);
        weight.copied().unwrap_or(self.algebra.one())
    }

    // The weights of these steps, in their order.
    fn weights_of(&self, steps: &[u8]) -> Result<Vec<A::Value>, AllocError>
        ensures { let o = everywhere (A.meaning self.now.algebra) in IfOk result (λ v. v.items ≡ map (λ j. slice_index_or self.now.weights.items j o.one) steps.now) }
    {
        let heap = *self.weights.allocator();
        steps.iter().map(|step| self.weight(*step)).collect(heap)
    }

    // What a chain of these steps comes to.
    fn appraised(&self, steps: &[u8]) -> Result<A::Value, AllocError>
        ensures { let o = everywhere (A.meaning self.now.algebra) in IfOk result (λ v. v ≡ comes_to o (map (λ j. slice_index_or self.now.weights.items j o.one) steps.now)) }
    {
        let weights = self.weights_of(steps)?;
        Ok(kleene::chain(&self.algebra, weights.as_slice()))
    }

    // The same in words, a line of them.
    fn appraise(&self, out: &mut String, steps: &[u8]) -> Result<(), AllocError> {
        writeln!(out, "  {self}: {}", Shown::<A>(self.appraised(steps)?))
    }

    // The weights of the steps, in a buffer of this length.
    pub(crate) fn lent(&self, length: usize) -> Result<Vec<A::Value>, AllocError>
        ensures { let weights = self.now.weights.items in IfOk result (λ v. v.items ≡ take length weights ++ replicate (length - vec_len self.now.weights) (everywhere (A.meaning self.now.algebra)).one) }
    {
        let mut lent = Vec::from_slice(*self.weights.allocator(), self.weights.as_slice())?;
        lent.resize(length, self.algebra.one())?;
        Ok(lent)
    }

    // What all routes from a source come to, for each format.
    fn query(&self, out: &mut String, network: &mut Network, source: usize) -> Result<(), Fault> {
        let answers = network.query(self, source)?;
        write!(out, "query {self} from {source}:")?;
        for answer in &answers {
            write!(out, " {}", Shown::<A>(*answer))?;
        }
        Ok(writeln!(out)?)
    }
}

// The modulus until a script sets one.
const FIRST_MODULUS: u64 = 24;

// A reading in each algebra.
#[derive(Drop)]
pub(crate) struct Readings {
    reach: Reading<Reach>,
    cost: Reading<Cost>,
    depth: Reading<Depth>,
    marks: Reading<Marks>,
    phase: Reading<Phase>,
}

impl Readings {
    pub(crate) fn new(heap: Global) -> Readings {
        Readings {
            reach: Reading::new(heap, Reach),
            cost: Reading::new(heap, Cost),
            depth: Reading::new(heap, Depth),
            marks: Reading::new(heap, Marks),
            phase: Reading::new(heap, Phase::new(FIRST_MODULUS).unwrap()),
        }
    }

    // Makes every weight one again.
    pub(crate) fn forget(&mut self) {
        self.reach.weights.clear();
        self.cost.weights.clear();
        self.depth.weights.clear();
        self.marks.weights.clear();
        self.phase.weights.clear();
    }

    // Sets the modulus for phase.
    pub(crate) fn set_modulus(&mut self, modulus: u64) -> Result<(), Refusal> {
        self.phase.algebra = Phase::new(modulus)?;
        Ok(())
    }

    // Sets the weight of a step in one algebra, and says so.
    pub(crate) fn weigh(
        &mut self,
        out: &mut String,
        step: u8,
        weight: Weight,
    ) -> Result<(), AllocError> {
        // Five arms, since their values are of five types and no function hands out a `dyn`.
        match weight {
            Weight::Reach(value) => self.reach.weigh(out, step, value),
            Weight::Cost(value) => self.cost.weigh(out, step, value),
            Weight::Depth(value) => self.depth.weigh(out, step, value),
            Weight::Marks(value) => self.marks.weigh(out, step, value),
            Weight::Phase(value) => self.phase.weigh(out, step, value),
        }
    }

    // What a chain of steps comes to in each algebra, a line for each.
    pub(crate) fn appraise(&self, out: &mut String, steps: &[u8]) -> Result<(), AllocError> {
        self.reach.appraise(out, steps)?;
        self.cost.appraise(out, steps)?;
        self.depth.appraise(out, steps)?;
        self.marks.appraise(out, steps)?;
        self.phase.appraise(out, steps)
    }

    // What all routes from a source come to in one algebra, for each format.
    pub(crate) fn query(
        &self,
        out: &mut String,
        network: &mut Network,
        algebra: AlgebraName,
        source: usize,
    ) -> Result<(), Fault> {
        // Five arms, since their readings are of five types and no function hands out a `dyn`.
        match algebra {
            AlgebraName::Reach => self.reach.query(out, network, source),
            AlgebraName::Cost => self.cost.query(out, network, source),
            AlgebraName::Depth => self.depth.query(out, network, source),
            AlgebraName::Marks => self.marks.query(out, network, source),
            AlgebraName::Phase => self.phase.query(out, network, source),
        }
    }
}
