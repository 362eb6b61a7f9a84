//! What a benchmark comes to.

use std::fmt;

/// What normalising a script came to: its clauses before and after, the steps, and the milliseconds of processor time that
/// each phase took.
#[derive(Debug, Clone, Copy)]
pub struct Phases {
    pub before: u64,
    pub after: u64,
    pub steps: u64,
    pub read_millis: u128,
    pub normal_millis: u128,
}

/// What is printed of a benchmark.
#[derive(Debug, Clone, Copy)]
pub enum Outcome {
    /// A number of clauses or bytes.
    Number(u64),
    /// A script that was read and normalised.
    Normal(Phases),
}

impl fmt::Display for Outcome {
    fn fmt<W: fmt::Write>(&self, f: &mut fmt::Formatter<W>) -> fmt::Result {
        match self {
            Outcome::Number(number) => write!(f, "{number}"),
            Outcome::Normal(phases) => write!(
                f,
                "clauses {} to {}, steps {}, reading {} ms, normalising {} ms",
                phases.before, phases.after, phases.steps, phases.read_millis, phases.normal_millis
            ),
        }
    }
}
