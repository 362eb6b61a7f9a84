//! Clauses, states and their limits; what clauses derive; the steps between states.
#![tactic(auto)]

mod clause;
mod defs;
mod formed;
#[cfg(test)]
mod formed_tests;
mod limits;
mod making;
mod names;
mod pass;
mod refutation;
mod state;
mod step;
mod tally;
#[cfg(test)]
mod tests;

pub use clause::{Atom, Clause, PredDecl};
pub use defs::{Def, Defs};
pub use formed::positions_fit;
pub use making::StateErr;
pub use names::Names;
pub use pass::Pass;
pub use refutation::{BackErr, RefStep, Refutation, Steps};
pub use state::State;
pub use step::Step;
pub use tally::{is_one_query, live_preds, over};
