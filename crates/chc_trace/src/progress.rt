//! How far the reading of a trace has come.

use crate::trace::Trace;
use chc_sorts::List;
use chc_state::Step;

/// What the trees so far are.
#[derive(Drop)]
pub enum Progress {
    /// None yet: the mark comes next.
    Start,
    /// The mark: the source comes next.
    Marked,
    /// The mark, the source with its digest, and the steps so far: a step or the target comes next.
    Stepping([u8; 32], List<Step>),
    /// A whole trace: nothing comes next.
    Ended(Trace),
}
