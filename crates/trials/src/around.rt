// The answers of the client that goes around a loop, beside what its equations come to by hand.
use crate::report::Report;
use algebras::{Cost, Depth};
use kleene::Algebra;
use std::fmt;
use std::fmt::Display;

// Values with commas between them.
#[derive(Drop)]
struct Listed<'a, V>(pub &'a [V]);

impl<V: Display> Display for Listed<'_, V> {
    fn fmt<W: fmt::Write>(&self, f: &mut fmt::Formatter<W>) -> fmt::Result {
        for (i, value) in self.0.iter().enumerate() {
            let comma = if i == 0 { "" } else { ", " };
            write!(f, "{comma}{value}")?;
        }
        Ok(())
    }
}

// Asks in an algebra, under weights of the four steps.
fn compare_in<V: Copy + PartialEq + Display, A: Algebra<Value = V>>(
    report: &mut Report,
    what: &str,
    algebra: &A,
    weights: &[V],
    expected: &[V],
) -> anyhow::Result<()> {
    let heap = report.heap();
    let mut memo = vec![in heap; algebra.zero(); 32]?;
    let mut answers = vec![in heap; algebra.zero(); 3]?;
    let _ = worked::around_a_loop(
        algebra,
        weights,
        memo.as_mut_slice(),
        answers.as_mut_slice(),
    );
    let same = answers.as_slice() == expected;
    let came = Listed(answers.as_slice());
    let expected = Listed(expected);
    Ok(report.verdict(format_args!("{what}: {came}, expected {expected}"), same)?)
}

// In render seconds and in bits that survive: by steps 0 and 1, and nothing is gained by going around by steps 1 and 2. Step 3 is
// retired.
pub(crate) fn compare(report: &mut Report) -> anyhow::Result<()> {
    report.heading("around a loop")?;
    compare_in(
        report,
        "costs 5, 2, 4 and 1",
        &Cost,
        &[5, 2, 4, 1],
        &[0, 5, 7],
    )?;
    compare_in(
        report,
        "depths 10, 8, 12 and 255",
        &Depth,
        &[10, 8, 12, 255],
        &[255, 10, 8],
    )
}
