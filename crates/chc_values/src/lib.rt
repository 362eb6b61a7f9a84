//! Values of sorts, and worlds: what is said of selectors on other constructors and of division by zero.
#![tactic(auto)]

mod array;
mod choice;
mod compare;
mod default;
mod range;
#[cfg(test)]
mod selector_tests;
mod sorting;
#[cfg(test)]
mod tests;
mod value;
mod world;

pub use array::{array_get, array_set};
pub use compare::same;
pub use default::default_of;
pub use range::in_range;
pub use sorting::is_of;
pub use value::{Entries, Value, Values, copy_values};
pub use world::{World, WorldEntry, WorldErr};
