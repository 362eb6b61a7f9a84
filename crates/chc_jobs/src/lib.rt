//! The jobs of the program: over byte lists in `lift`, over files in `top`.
#![tactic(auto)]

pub mod lift;
#[cfg(test)]
mod tests;
pub mod top;
