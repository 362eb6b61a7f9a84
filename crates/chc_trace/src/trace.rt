//! Traces.

use chc_sorts::List;
use chc_source::ByteText;
use chc_state::Step;

/// Which steps lead from one script to another.
#[derive(Debug, Drop)]
pub struct Trace {
    /// The SHA-256 digest of the script's bytes.
    pub source: [u8; 32],
    /// The steps, in the order in which they are taken.
    pub steps: List<Step>,
    /// The text of the last script.
    pub target: ByteText,
}
