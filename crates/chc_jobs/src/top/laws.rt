//! What isn't refused.

ghost use Rattle.chc_jobs.specs.Runs.{LiftableIsLifted};

use chc_steps::{last_state_is_one, no_legal_step_is_refused};

/// A script, a trace that belongs to it and an answer for the state that the trace leads to aren't refused.
pub fn liftable_is_lifted()
    ensures { LiftableIsLifted }
{
    last_state_is_one();
    no_legal_step_is_refused();
}
