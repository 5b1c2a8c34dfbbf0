// Lists of steps, which grow from the empty one by one step at a time.
use std::alloc::{AllocError, Global};

// The most steps of a list.
pub(crate) const LONGEST: usize = 4;

// A list of steps, and the place to which they lead.
#[derive(Drop)]
pub(crate) struct Route {
    pub steps: Vec<usize>,
    pub end: usize,
}

impl Route {
    // The list with one step more, which leads to an end of its own.
    fn with(&self, step: usize, end: usize) -> Result<Route, AllocError> {
        let mut steps = self.steps.clone()?;
        steps.push(step)?;
        Ok(Route { steps, end })
    }
}

// The routes with one step more.
fn longer<F: Fn(usize, usize) -> Option<usize>>(
    heap: Global,
    routes: &[Route],
    steps: usize,
    leads: &F,
) -> Result<Vec<Route>, AllocError>
    requires { F.IsAlwaysCallable leads.now }
{
    let mut out = Vec::new(heap);
    for route in routes {
        // The counter is the step itself.
        for step in 0..steps {
            if let Some(end) = leads(route.end, step) {
                out.push(route.with(step, end)?)?;
            }
        }
    }
    Ok(out)
}

// Every route from a start by so many steps, no longer than lists get, by length: `leads` says where a step leads from a place, if it
// leaves there.
pub(crate) fn grow<F: Fn(usize, usize) -> Option<usize>>(
    heap: Global,
    start: usize,
    steps: usize,
    leads: F,
) -> Result<Vec<Route>, AllocError>
    requires { F.IsAlwaysCallable leads }
{
    let mut routes = Vec::new(heap);
    let mut last = vec![in heap;
        Route {
            steps: Vec::new(heap),
            end: start
        },
    ]?;
    for _ in 0..LONGEST {
        let next = longer(heap, last.as_slice(), steps, &leads)?;
        routes.extend(last)?;
        last = next;
    }
    routes.extend(last)?;
    Ok(routes)
}

// Every list of so many steps: each step leads from one place back to it.
pub(crate) fn all(heap: Global, steps: usize) -> Result<Vec<Route>, AllocError> {
    grow(heap, 0, steps, |place, _| Some(place))
}
