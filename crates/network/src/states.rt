// The two states of a network. Both hold counts alone; the buffers are lent at each call.
//
// A state is moved: sealing takes the draft, and reopening gives it back, so that no step can be added to a sealed network.
ghost use Rattle.std.specs.Prelude.{◌≡◌};

use refusals::Refusal;
use std::marker::Model;

// A network that is being drawn.
#[derive(Drop)]
pub struct Draft {
    pub(crate) formats: u32,
    pub(crate) steps: usize,
}

// Contracts see the counts. There are at most 32 formats, and at most 256 steps in a network's life.
impl Model for Draft {
    ghost use Rattle.std.specs.Prelude.{◌≤◌};
    ghost use Rattle.network.specs.States.{DraftCounts};

    ghost Value = { DraftCounts };

    ghost view = { λ d. record { formats = d.formats; steps = d.steps } };

    ghost invariant = { λ d. (d.formats ≤ 32) × (d.steps ≤ 256) };
}

impl Draft {
    // How many steps were added, in force or retired.
    pub fn step_count(&self) -> usize
        ensures { result ≡ self.now.steps }
    {
        self.steps
    }
}

// A draft that could not be sealed, and why.
#[derive(Drop)]
pub struct NotSealed {
    pub draft: Draft,
    pub refusal: Refusal,
}

impl From<NotSealed> for Refusal {
    ghost from_gives = { λ back refusal. refusal ≡ back.refusal };

    fn from(back: NotSealed) -> Refusal {
        back.refusal
    }
}

// A network that was sealed, so that routes can be worked out.
#[derive(Drop)]
pub struct Sealed {
    pub(crate) formats: u32,
    pub(crate) steps: usize,
    pub(crate) components: usize,
    pub(crate) records: usize,
}

// Contracts see the counts. A store has at least records 0 and 1, and uses at most 131,072.
impl Model for Sealed {
    ghost use Rattle.std.specs.Prelude.{◌≤◌};
    ghost use Rattle.network.specs.States.{SealedCounts};

    ghost Value = { SealedCounts };

    ghost view = { λ s. record { formats = s.formats; steps = s.steps; components = s.components; records = s.records } };

    ghost invariant = { λ s. ((s.formats ≤ 32) × (s.steps ≤ 256)) × ((2 ≤ s.records) × (s.records ≤ 131072)) };
}
