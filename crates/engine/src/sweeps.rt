// The moves by which a row is traced, component by component.
ghost use Rattle.std.specs.Prelude.{◌≡◌, ◌<◌, [], ◌∷◌, map};
ghost use Rattle.elimination.specs.Moves.{scale, pass, cross, sweep, sweep_back, leaving, tracing};
ghost use Rattle.network.specs.Plans.{planned};
ghost use Rattle.planning.specs.Drawn.{drawn};
ghost use Rattle.engine.specs.Rows.{Formats, Traced, leaves, through_component};

use crate::tracer::Tracer;
use expressions::Step;
use network::Plan;
use refusals::Refusal;

// Whether a step is in force and leaves component c for another.
fn leaves(plan: &Plan, step: Step, c: u32) -> bool
    ensures { result ≡ leaves (planned plan.now).component c step }
{
    step.in_force
        && plan.component_of(step.from as usize) == c
        && plan.component_of(step.to as usize) != c
}

// Formats are plain numbers here, as the lists of a plan hold them: so a move bounds those that it is given, as for an index.
impl Tracer<'_, '_, '_> {
    // R(v) becomes R(v) and then P(v, v).
    fn scale(&mut self, v: usize) -> Result<(), Refusal>
        requires { v < (planned self.old.plan.now).formats }
        ensures { Traced self.old self.new result (scale v ∷ []) }
    {
        let closed = self.plan.entry(v, v);
        self.row.scale(self.store, v, closed)
    }

    // R(w) becomes R(w), or R(v) and then P(v, w).
    fn pass(&mut self, v: usize, w: usize) -> Result<(), Refusal>
        requires from { v < (planned self.old.plan.now).formats }
        requires to { w < (planned self.old.plan.now).formats }
        ensures { Traced self.old self.new result (pass v w ∷ []) }
    {
        let leads = self.plan.entry(v, w);
        self.row.pass(self.store, v, w, leads)
    }

    // R(to) becomes R(to), or R(from) and then step j.
    fn cross(&mut self, j: u32, step: Step) -> Result<(), Refusal>
        requires from { step.from < 32 }
        requires to { step.to < 32 }
        ensures { Traced self.old self.new result (cross j step.from step.to ∷ []) }
    {
        let made = self.store.step(j)?;
        self.row
            .pass(self.store, step.from as usize, step.to as usize, made)
    }

    // From v to each of the formats.
    fn pass_all(&mut self, v: usize, formats: &[u32]) -> Result<(), Refusal>
        requires from { v < (planned self.old.plan.now).formats }
        requires to { Formats (planned self.old.plan.now).formats formats.now }
        ensures { Traced self.old self.new result (map (pass v) formats.now) }
    {
        for w in formats {
            self.pass(v, *w as usize)?;
        }
        Ok(())
    }

    // The first sweep over the formats of a component: each is scaled, and passed to the later ones.
    fn sweep(&mut self, formats: &[u32]) -> Result<(), Refusal>
        requires { Formats (planned self.old.plan.now).formats formats.now }
        ensures { Traced self.old self.new result (sweep formats.now) }
    {
        let mut rest = formats;
        while let Some((v, later)) = rest.split_first() {
            self.scale(*v as usize)?;
            self.pass_all(*v as usize, later)?;
            rest = later;
        }
        Ok(())
    }

    // The second sweep, falling: each is passed to the earlier ones.
    fn sweep_back(&mut self, formats: &[u32]) -> Result<(), Refusal>
        requires { Formats (planned self.old.plan.now).formats formats.now }
        ensures { Traced self.old self.new result (sweep_back [] formats.now) }
    {
        let mut rest = formats;
        while let Some((v, earlier)) = rest.split_last() {
            self.pass_all(*v as usize, earlier)?;
            rest = earlier;
        }
        Ok(())
    }

    // Each step in force that leaves component c for another is crossed, rising.
    fn leave(&mut self, c: u32) -> Result<(), Refusal>
        ensures { Traced self.old self.new result (leaving (drawn (planned self.old.plan.now).formats self.old.steps.now) (planned self.old.plan.now).component c) }
    {
        let plan = self.plan;
        let steps = self.steps;
        for (j, step) in steps.iter().enumerate() {
            if leaves(plan, *step, c) {
                self.cross(j as u32, *step)?;
            }
        }
        Ok(())
    }

    // The row is traced through component c.
    fn go_through(&mut self, c: usize) -> Result<(), Refusal>
        requires { c < (planned self.old.plan.now).components }
        ensures { Traced self.old self.new result (through_component (drawn (planned self.old.plan.now).formats self.old.steps.now) (planned self.old.plan.now).component c) }
    {
        let plan = self.plan;
        let formats = plan.members(c);
        self.sweep(formats)?;
        self.sweep_back(formats)?;
        self.leave(c as u32)
    }

    // The row is traced through each component in turn.
    pub(crate) fn trace(&mut self) -> Result<(), Refusal>
        ensures { Traced self.old self.new result (tracing (drawn (planned self.old.plan.now).formats self.old.steps.now) (planned self.old.plan.now).components (planned self.old.plan.now).component) }
    {
        let plan = self.plan;
        // The counter is the component itself.
        for c in 0..plan.components() {
            self.go_through(c)?;
        }
        Ok(())
    }
}
