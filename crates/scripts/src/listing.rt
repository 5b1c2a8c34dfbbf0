// How steps, records and plans are listed.
use expressions::{Kind, Record, Step};
use network::Plan;
use std::alloc::AllocError;
use std::fmt;
use std::fmt::Write;

// A line for each step.
pub(crate) fn steps(out: &mut String, steps: &[Step]) -> Result<(), AllocError> {
    for (j, step) in steps.iter().enumerate() {
        let from = step.from;
        let to = step.to;
        let state = if step.in_force { "in force" } else { "retired" };
        writeln!(out, "step {j}: {from} to {to}, {state}")?;
    }
    Ok(())
}

// What a record says, by its kind.
#[derive(Drop)]
struct ShownRecord(pub Record);

impl fmt::Display for ShownRecord {
    fn fmt<W: fmt::Write>(&self, f: &mut fmt::Formatter<W>) -> fmt::Result {
        let left = self.0.left;
        let right = self.0.right;
        match Kind::try_from(self.0.kind) {
            Ok(Kind::Nothing) => f.write_str("nothing"),
            Ok(Kind::Stay) => f.write_str("stay"),
            Ok(Kind::Step) => write!(f, "step {left}"),
            Ok(Kind::Sum) => write!(f, "sum {left} {right}"),
            Ok(Kind::Then) => write!(f, "then {left} {right}"),
            Ok(Kind::Repeat) | Err(_) => write!(f, "repeat {left}"),
        }
    }
}

// A line for each record.
pub(crate) fn records(out: &mut String, records: &[Record]) -> Result<(), AllocError> {
    for (i, record) in records.iter().enumerate() {
        let what = ShownRecord(*record);
        let next = record.next;
        writeln!(out, "record {i}: {what}, next {next}")?;
    }
    Ok(())
}

// Numbers that end a line.
pub(crate) fn numbers(out: &mut String, numbers: &[u32]) -> Result<(), AllocError> {
    for number in numbers {
        write!(out, " {number}")?;
    }
    writeln!(out)
}

// The order of the formats, the component of each, and a line for each row of expressions.
pub(crate) fn plan(out: &mut String, plan: &Plan) -> Result<(), AllocError> {
    write!(out, "order:")?;
    numbers(out, plan.order())?;
    write!(out, "component:")?;
    numbers(out, plan.component())?;
    let formats = plan.order().len();
    // The counters are the formats themselves.
    for u in 0..formats {
        write!(out, "P {u}:")?;
        for w in 0..formats {
            let entry = plan.entry(u, w);
            write!(out, " {entry}")?;
        }
        writeln!(out)?;
    }
    Ok(())
}
