//! Traces: the steps that lead from a script to another, as a text.
#![tactic(auto)]

mod hashing;
mod kind;
mod place;
mod progress;
mod read;
mod shape;
mod text;
mod trace;

pub use hashing::digest;
pub use read::read_trace;
pub use text::trace_text;
pub use trace::Trace;

#[cfg(test)]
mod tests;
