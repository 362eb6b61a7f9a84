//! What names stand for.

use crate::typed::Typed;

/// What a name stands for: a term, which is under the first `under` variables.
#[derive(Drop)]
pub struct Bound {
    pub value: Typed,
    pub under: u32,
}
