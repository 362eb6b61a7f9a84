//! Printed terms that are read again.
#![tactic(auto)]

mod laws;

pub use laws::{
    all_printed_terms_are_read, all_printed_terms_are_said, binders_hold_theirs,
    plain_terms_bind_none, signatures_are_fresh, texts_hold_bound, written_terms_are_near,
};
