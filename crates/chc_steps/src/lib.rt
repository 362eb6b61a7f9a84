//! Runs: steps of all kinds, taken one after the other as long as some kind has a choice, or taken again; and the way back
//! over them, for definitions and for refutations.
#![tactic(auto)]

mod any;
mod generic;
mod laws;
mod refusal;
mod run;
#[cfg(test)]
mod tests;

pub use any::AnyUndo;
pub use laws::{last_state_is_one, no_legal_step_is_refused, way_back_is_one};
pub use refusal::{ReplayErr, RunBackErr};
pub use run::{Run, back_defs, back_steps, first, normal, replay};
