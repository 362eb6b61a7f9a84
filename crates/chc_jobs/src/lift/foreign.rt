//! Why a trace isn't a script's.

use chc_source::ByteText;

/// Why a trace isn't the script's.
#[derive(Debug, Drop)]
pub enum Foreign {
    /// The digest that the trace keeps, and another one: that of the script's bytes.
    Source([u8; 32], [u8; 32]),
    /// The step of that number, counted from 0, is the first that isn't legal where it stands.
    Step(u64),
    /// The text that the trace keeps, and another one: that of the state to which the steps lead.
    Target(ByteText, ByteText),
}
