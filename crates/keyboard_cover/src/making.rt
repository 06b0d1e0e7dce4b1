//! How a case is added to the script.
use crate::cases::What;
use crate::drafts::Drafts;
use crate::plan::{Plan, attempt};
use crate::run::{Run, Stop};
use std::alloc::AllocError;

/// Adds the case if it could be made and comes to rest. Answers whether it was added.
pub(crate) fn make<'m>(
    drafts: &mut Drafts,
    plan: &Plan<'m>,
    what: What,
    made: Result<Run<'m>, Stop>,
) -> Result<bool, AllocError> {
    match made {
        Ok(run) => end(drafts, plan, what, run),
        Err(Stop::Refused) => Ok(false),
        Err(Stop::Memory) => Err(AllocError),
    }
}

/// Brings the run to rest and adds it. Answers whether it was added.
fn end<'m>(
    drafts: &mut Drafts,
    plan: &Plan<'m>,
    what: What,
    made: Run<'m>,
) -> Result<bool, AllocError> {
    let mut run = made;
    match attempt(plan.settle(&mut run)) {
        Ok(true) => drafts.keep(&what, &run),
        Ok(false) => Ok(false),
        Err(_) => Err(AllocError),
    }
}
