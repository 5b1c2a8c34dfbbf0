// trials prints what the engine does beside what it should do: its rules at their edges, and the routes of small networks with
// loops, which code of its own finds by walking them, and the answers of a client. Each line ends with `agrees` or `differs`.
#![tactic(auto)]

mod around;
mod buffers;
mod edges;
mod histories;
mod lists;
mod report;
mod routes;
mod spelling;
mod walks;

use anyhow::ensure;
use histories::HISTORIES;
use report::Report;

// The routes of each of the networks.
fn all_routes(report: &mut Report) -> anyhow::Result<()> {
    for (i, history) in HISTORIES.iter().enumerate() {
        routes::compare(report, i + 1, history)?;
    }
    Ok(())
}

// Runs every trial, and says whether all agree.
fn run(rt: &HostRuntime) -> anyhow::Result<bool> {
    let mut report = Report::new(rt);
    edges::compare(&mut report)?;
    all_routes(&mut report)?;
    around::compare(&mut report)?;
    Ok(report.agrees())
}

fn main(rt: HostRuntime) -> anyhow::Result<()> {
    ensure!(run(&rt)?, "something differs");
    Ok(())
}
