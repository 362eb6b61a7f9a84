//! Whole scripts: every command, with the place of the first fault.

mod asserted;
mod assertion;
mod command;
mod datatypes;
mod draft;
mod limits;
mod names;
mod predicates;
mod progress;
mod refused;
mod script;
mod taken;

pub use refused::first_empty_is_found;
pub use script::read_script;

#[cfg(test)]
mod tests;
