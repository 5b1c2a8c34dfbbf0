// The marks that may arrive: burnt-in timecode, a watermark, a slate and their like, one bit each.
ghost use Rattle.std.specs.Prelude.{◌≡◌};
ghost use Rattle.algebras.specs.Marks.{marks_meaning, others};
ghost use Rattle.algebras.specs.MarkLaws.{marks_laws};

use kleene::Algebra;

// What a step, or a route, that lets something through does to the marks of a picture: those that it sets and those that
// it passes on.
#[derive(Clone, Copy, PartialEq, Eq, Debug)]
pub struct Marking {
    pub sets: u64,
    pub passes: u64,
}

// Sets nothing and passes every mark on.
const UNTOUCHED: Marking = Marking {
    sets: 0,
    passes: u64::MAX,
};

// Zero is `None`, where nothing comes through. A marking is a member where what it sets and what it passes on share no
// mark.
#[derive(Clone, Copy)]
pub struct Marks;

// Every mark that is not among these.
fn rest(marks: u64) -> u64
    ensures { result ≡ others marks }
{
    !marks
}

impl Algebra for Marks {
    type Value = Option<Marking>;

    ghost meaning = { λ _. marks_meaning };

    ghost kleene = { λ s. marks_laws };

    fn is_member(&self, a: Option<Marking>) -> bool {
        a.is_none_or(|marking| marking.sets & marking.passes == 0)
    }

    fn zero(&self) -> Option<Marking> {
        None
    }

    fn one(&self) -> Option<Marking> {
        Some(UNTOUCHED)
    }

    fn sum(&self, a: Option<Marking>, b: Option<Marking>) -> Option<Marking> {
        match (self.operand(a), self.operand(b)) {
            (None, other) | (other, None) => other,
            (Some(a), Some(b)) => {
                let sets = a.sets | b.sets;
                Some(Marking {
                    sets,
                    passes: (a.passes | b.passes) & rest(sets),
                })
            }
        }
    }

    fn product(&self, a: Option<Marking>, b: Option<Marking>) -> Option<Marking> {
        let (first, second) = (self.operand(a)?, self.operand(b)?);
        Some(Marking {
            sets: second.sets | (first.sets & second.passes),
            passes: first.passes & second.passes,
        })
    }

    fn star(&self, a: Option<Marking>) -> Option<Marking> {
        Some(match self.operand(a) {
            None => UNTOUCHED,
            Some(Marking { sets, .. }) => Marking {
                sets,
                passes: rest(sets),
            },
        })
    }
}
