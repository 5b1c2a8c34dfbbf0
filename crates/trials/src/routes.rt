// The lists that traced expressions spell, beside the routes that are found by walking.
use crate::buffers::Buffers;
use crate::histories::History;
use crate::lists::{LONGEST, Route};
use crate::report::Report;
use crate::{lists, spelling, walks};
use expressions::{Record, Step};
use network::Sealed;
use std::alloc::{AllocError, Global};
use std::fmt;
use std::fmt::Write;

// A list that is tried for a target: in how many ways it is spelled, and whether it is a route there.
#[derive(Clone, Copy)]
struct Tried<'a> {
    steps: &'a [usize],
    target: usize,
    ways: u64,
    is_route: bool,
}

// Every list of a network's steps tried for each target, and the routes from a source.
#[derive(Drop)]
struct Comparison<'a> {
    source: usize,
    tried: Vec<Tried<'a>>,
    routes: Vec<Route>,
}

impl fmt::Display for Comparison<'_> {
    fn fmt<W: fmt::Write>(&self, f: &mut fmt::Formatter<W>) -> fmt::Result {
        let source = self.source;
        let routes = self.routes.len();
        let once = self.once();
        let others = self.others();
        write!(
            f,
            "from {source}: {routes} routes of at most {LONGEST} steps, {once} spelled in exactly 1 way, {others} other lists spelled"
        )
    }
}

impl Comparison<'_> {
    // How many routes are spelled in exactly one way.
    fn once(&self) -> usize {
        self.tried
            .iter()
            .filter(|tried| tried.is_route && tried.ways == 1)
            .count()
    }

    // How many lists are spelled that are no routes.
    fn others(&self) -> usize {
        self.tried
            .iter()
            .filter(|tried| !tried.is_route && tried.ways > 0)
            .count()
    }

    fn agrees(&self) -> bool {
        self.once() == self.routes.len() && self.others() == 0
    }

    // The lists that are spelled for a target, with the ways where they are not 1.
    fn spelled(&self, heap: Global, target: usize) -> anyhow::Result<String> {
        let mut out = String::new(heap);
        for tried in self.tried.iter().filter(|tried| tried.target == target) {
            let steps = tried.steps;
            match tried.ways {
                0 => {}
                1 => write!(out, " {steps:?}")?,
                more => write!(out, " {steps:?}x{more}")?,
            }
        }
        Ok(out)
    }

    // The routes that end at a target.
    fn walked(&self, heap: Global, target: usize) -> anyhow::Result<String> {
        let mut out = String::new(heap);
        for route in self.routes.iter().filter(|route| route.end == target) {
            let steps = &route.steps;
            write!(out, " {steps:?}")?;
        }
        Ok(out)
    }

    // A line with the lists themselves.
    fn show(&self, report: &mut Report, target: usize) -> anyhow::Result<()> {
        let spelled = self.spelled(report.heap(), target)?;
        let walked = self.walked(report.heap(), target)?;
        let same = spelled == walked;
        Ok(report.verdict(
            format_args!("  to {target}: spelled{spelled}; walked{walked}"),
            same,
        )?)
    }
}

// A sealed network, with its number and every list of its steps.
#[derive(Drop)]
struct Trial {
    number: usize,
    formats: usize,
    sealed: Sealed,
    buffers: Buffers,
    lists: Vec<Route>,
}

impl Trial {
    fn new(heap: Global, number: usize, history: &History) -> anyhow::Result<Trial> {
        let mut buffers = Buffers::new(heap, 1000)?;
        let draft = buffers.draw(history)?;
        let lists = lists::all(heap, draft.step_count())?;
        let sealed = buffers.seal(draft)?;
        Ok(Trial {
            number,
            formats: history.formats,
            sealed,
            buffers,
            lists,
        })
    }

    // The records in use.
    fn records(&self) -> &[Record] {
        let (_, count) = self.sealed.size();
        self.buffers.records.get(..count).unwrap_or(&[])
    }

    // The steps that were added.
    fn steps(&self) -> &[Step] {
        let count = self.sealed.step_count();
        self.buffers.steps.get(..count).unwrap_or(&[])
    }

    // The row that was traced last.
    fn row(&self) -> &[u32] {
        self.buffers.row.get(..self.formats).unwrap_or(&[])
    }

    // Tries a list for each target.
    fn try_list<'a>(
        &'a self,
        heap: Global,
        list: &'a Route,
        routes: &[Route],
        tried: &mut Vec<Tried<'a>>,
    ) -> Result<(), AllocError> {
        let steps = list.steps.as_slice();
        let ways = spelling::spell(heap, self.records(), steps)?;
        tried.extend(
            self.row().iter().enumerate().map(|(target, number)| Tried {
                steps,
                target,
                ways: ways.get(*number as usize).copied().unwrap_or(0),
                is_route: routes.iter().any(|route| route.end == target
                    && route.steps.as_slice() == steps),
            }),
        )
    }

    // Compares the row of a source with the routes from it.
    fn compare(&self, heap: Global, source: usize) -> anyhow::Result<Comparison<'_>> {
        let routes = walks::walk(heap, self.steps(), source)?;
        let mut tried = Vec::new(heap);
        for list in &self.lists {
            self.try_list(heap, list, routes.as_slice(), &mut tried)?;
        }
        Ok(Comparison {
            source,
            tried,
            routes,
        })
    }

    // Traces the network from a source, and compares.
    fn run(&mut self, report: &mut Report, source: usize) -> anyhow::Result<()> {
        self.buffers.trace(&mut self.sealed, source)?;
        let comparison = self.compare(report.heap(), source)?;
        report.verdict(&comparison, comparison.agrees())?;
        // the lists themselves are shown for the first network alone
        if self.number == 1 {
            for target in 0..self.formats {
                comparison.show(report, target)?;
            }
        }
        Ok(())
    }
}

// Compares from each source of a network in turn.
pub(crate) fn compare(report: &mut Report, number: usize, history: &History) -> anyhow::Result<()> {
    let what = history.what;
    let mut trial = Trial::new(report.heap(), number, history)?;
    report.heading(format_args!("network {number}: {what}"))?;
    for source in 0..history.formats {
        trial.run(report, source)?;
    }
    Ok(())
}
