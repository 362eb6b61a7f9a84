//! How far the reading of a script has come.

use crate::script::Script;
use crate::whole::draft::Draft;

/// What the commands so far have made.
#[derive(Drop)]
pub enum Progress {
    /// A draft, to which more commands come.
    Going(Draft),
    /// The script that `(check-sat)` has ended.
    Ended(Script),
}
