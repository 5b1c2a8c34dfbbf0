// The routes of a network, found by walking it.
use crate::lists;
use crate::lists::Route;
use expressions::Step;
use std::alloc::{AllocError, Global};

// Every route from a source that is no longer than lists get: each is followed by every step in force that leaves where it ends.
pub(crate) fn walk(heap: Global, steps: &[Step], source: usize) -> Result<Vec<Route>, AllocError> {
    lists::grow(heap, source, steps.len(), |end, j| {
        let step = steps.get(j)?;
        (step.in_force && step.from as usize == end).then_some(step.to as usize)
    })
}
