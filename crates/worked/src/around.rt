// A client of the engine, which draws a network with a loop and asks it in an algebra that its caller brings. What it promises of
// the answers rests on what querying promises in every history, and on no run.
ghost use Rattle.std.specs.Prelude.{◌≡◌, IfOk, OnOk};
ghost use Rattle.refusals.specs.Refused.{outcome};
ghost use Rattle.worked.specs.Drawing.{Drawing, Draws};
ghost use Rattle.worked.specs.Around.{around, drawing_around, LeastAround, asked_around};

use expressions::{Record, Step};
use kleene::Algebra;
use network::{Draft, Plan};
use refusals::Refusal;

// Draws the network.
fn draw(steps: &mut [Step]) -> Result<Draft, Refusal>
    ensures value { ◌≡◌ {A = Drawing} (outcome (λ d. d) result, steps.new) (drawing_around steps.old) }
    ensures history { IfOk result (λ draft. Draws draft steps.new around) }
{
    let mut draft = Draft::open(3)?;
    draft.add(steps, 0, 1)?;
    draft.add(steps, 1, 2)?;
    draft.add(steps, 2, 1)?;
    draft.add(steps, 0, 2)?;
    draft.retire(steps, 3)?;
    Ok(draft)
}

// What the routes from format 0 to each of the three come to, under these weights of the four steps.
pub fn around_a_loop<A: Algebra>(
    algebra: &A,
    weights: &[A::Value],
    memo: &mut [A::Value],
    answers: &mut [A::Value],
) -> Result<(), Refusal>
    ensures asked { outcome (λ u. u) result ≡ asked_around (A.meaning algebra.now) weights.now memo.old answers.old }
    ensures least { OnOk result (LeastAround (A.meaning algebra.now) weights.now answers.new) }
{
    // Written out, and not by `default`: the proof computes with these buffers, and then need not first show what they hold.
    let mut steps = [Step {
        from: 0,
        to: 0,
        in_force: false,
    }; 4];
    let mut records = [Record {
        kind: 0,
        left: 0,
        right: 0,
        next: 0,
    }; 32];
    let mut heads = [0u32; 1024];
    let mut row = [0u32; 3];
    let mut plan = Plan::new();
    let draft = draw(&mut steps)?;
    let mut sealed = draft.seal(&steps, &mut records, &mut heads, &mut plan)?;
    engine::query(
        algebra,
        &mut sealed,
        &steps,
        &mut records,
        &mut heads,
        &mut row,
        weights,
        memo,
        answers,
        &plan,
        0,
    )
}
