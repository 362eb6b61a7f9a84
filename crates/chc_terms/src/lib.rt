//! Terms: their values, and what is counted of them.
#![tactic(auto)]

mod context;
mod counts;
mod declared;
mod demand;
mod equality;
mod fun_sort;
mod plain;
#[cfg(test)]
mod shift_tests;
mod shifting;
#[cfg(test)]
mod sort_tests;
mod sorting;
mod term;
#[cfg(test)]
mod tests;
mod value_term;

pub use context::{Context, SortErr};
pub use counts::{depth, depth_all, occurs, occurs_all, size, size_all};
pub use equality::alike;
pub use fun_sort::FunSort;
pub use plain::{are_fitting, is_plain, number_fits, numbers_fit, sort_fits, sorts_fit};
pub use shifting::{shift, shift_all};
pub use sorting::{judged_exactly, sort_if_any, sort_of, sorts_if_any, sorts_of};
pub use term::{Kind, Term, Terms, copy_terms};
pub use value_term::is_value_term;
