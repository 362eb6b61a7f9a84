//! Printed scripts that are read again.
#![tactic(auto)]

mod again;
#[cfg(test)]
mod depth_tests;
mod laws;
#[cfg(test)]
mod tests;
mod used;

pub use again::{AgainErr, read_again};
pub use laws::{
    names_that_are_read_differ, printed_scripts_are_read, room_is_enough, says_its_clause,
};
pub use used::{last_declared_is_used, used_are_declared};
