//! The text of a script's state, read as a script.

ghost use Rattle.chc_state.specs.Names.{AreNamesOf};
ghost use Rattle.read_again.specs.Again.{IsOwnAgain, IsReadAgain};
ghost use Rattle.read_again.specs.PrintedScripts.{AreReadable};

use chc_print::script_text;
use chc_script::{Script, read_script};
use chc_sexpr::{TextErr, TextFault};
use chc_sorts::NoMemory;
use std::alloc::Global;

/// How many bytes a text has at most.
const MOST_BYTES: usize = 4_294_967_295;

/// Why the text of a state isn't read again.
#[derive(Debug, Drop)]
pub enum AgainErr {
    /// The text has more than 4,294,967,295 bytes.
    TooLong,
    /// The text has a fault.
    Refused(TextFault),
    /// Memory was refused.
    NoMemory,
}

impl From<NoMemory> for AgainErr {
    ghost use Rattle.std.specs.Prelude.{◌≡◌};
    ghost use Rattle.read_again.specs.declared.again.AgainErr.TheVariants.{NoMemory as refused};

    ghost from_gives = { λ _ made. made ≡ refused };

    fn from(_refused: NoMemory) -> AgainErr {
        AgainErr::NoMemory
    }
}

/// The script for which the text of the script's state stands. Where the script's names are those of its state and the
/// assertion of each clause is no larger and no deeper than a term may be, that is the state's own script: its live predicates
/// with their names, numbered anew, the groups of datatypes up to the last one that it uses, and its clauses with the weight 1.
/// Errors: `TooLong`; `Refused` with the first fault of the text, which comes of names or clauses that aren't so; `NoMemory`.
pub fn read_again(alloc: Global, script: &Script) -> Result<Script, AgainErr>
    ensures text { IsReadAgain script.now result }
    ensures again { AreNamesOf script.now.state script.now.names → AreReadable script.now.state → IsOwnAgain script.now result }
{
    script.state.sig().made_of_groups();
    let _clauses = script.state.clauses();
    let text = script_text(alloc, &script.state, &script.names)?;
    if text.len() > MOST_BYTES {
        return Err(AgainErr::TooLong);
    }
    match read_script(alloc, text.bytes()) {
        Ok(again) => Ok(again),
        Err(TextErr::At(fault)) => Err(AgainErr::Refused(fault)),
        Err(TextErr::NoMemory) => Err(AgainErr::NoMemory),
    }
}
