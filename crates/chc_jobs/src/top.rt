//! The top call: from words and files to files, a line and a status.

mod command;
mod files;
mod laws;
mod lifting;
mod line;
mod normalising;
mod status;
mod word;

ghost use Rattle.std.specs.Prelude.{◌≡◌, ◌⊎◌, ◌↔◌, ℕ, List};
ghost use Rattle.chc_jobs.specs.Runs.{Touches, NormaliseComes, NormaliseCompletes, LiftComes, LiftCompletes, normalise_files, lift_files};
ghost use Rattle.chc_jobs.specs.Lines.{line, HasPut, HasFailed};
ghost use Rattle.chc_jobs.specs.Commands.{IsNormalise, IsLift, IsNoCommand};

use chc_source::{Files, Sink};
use command::{lift_names, normalise_names};
pub use laws::liftable_is_lifted;
use lifting::run_lift;
use line::put_line;
use normalising::run_normalise;
pub use status::{Outcome, Status};
use std::alloc::Global;
pub use word::Word;

/// What the words come to on these files.
fn answer<F: Files>(alloc: Global, words: &[Word], files: &mut F) -> Status
    ensures usage { (result ≡ Status.Usage) ↔ IsNoCommand words.now }
    ensures idle { IsNoCommand words.now → F.outside files.new ≡ F.outside files.old }
    ensures normalise { (script out trace : List ℕ) → IsNormalise words.now script out trace → NormaliseComes script out trace (F.outside files.old) (F.outside files.new) result }
    ensures touches { (script out trace : List ℕ) → IsNormalise words.now script out trace → Touches (normalise_files script out trace) (F.outside files.old) (F.outside files.new) }
    ensures lift { (script trace answer out : List ℕ) → IsLift words.now script trace answer out → LiftComes script trace answer out (F.outside files.old) (F.outside files.new) result }
    ensures lift_touches { (script trace answer out : List ℕ) → IsLift words.now script trace answer out → Touches (lift_files script trace answer out) (F.outside files.old) (F.outside files.new) }
{
    if let Some(names) = normalise_names(words) {
        return match run_normalise(alloc, files, &names) {
            Ok(outcome) => Status::Done(outcome),
            Err(status) => status,
        };
    }
    if let Some(names) = lift_names(words) {
        return match run_lift(alloc, files, &names) {
            Ok(outcome) => Status::Done(outcome),
            Err(status) => status,
        };
    }
    Status::Usage
}

/// Runs the command that the words are, over these files, and puts the one line that tells how it ended
/// to `say`. The words come without the program's name.
///
/// `normalise SCRIPT OUT TRACE` reads the script of the file SCRIPT, takes steps that keep its answer until no
/// kind of step is left to take, and writes the script that they lead to to the file OUT and the trace of the steps
/// to the file TRACE. OUT differs from both other names, and
/// TRACE from SCRIPT. Files are written only once everything is computed, OUT before TRACE.
///
/// `lift SCRIPT TRACE ANSWER OUT` reads the script, a trace and an answer in this order, replays the trace
/// on the script, checks that it leads to its target, reads the model that the answer gives of the
/// predicates that its steps leave, takes it back over the steps, and writes the model of the script to the
/// file OUT, which differs from the other names.
///
/// Every other list of words is answered with `Usage`, and nothing is read. A fault of `say` doesn't
/// change the status.
pub fn run<F: Files, K: Sink>(alloc: Global, words: &[Word], files: &mut F, say: &mut K) -> Status
    ensures usage { (result ≡ Status.Usage) ↔ IsNoCommand words.now }
    ensures idle { IsNoCommand words.now → F.outside files.new ≡ F.outside files.old }
    ensures normalise { (script out trace : List ℕ) → IsNormalise words.now script out trace → NormaliseComes script out trace (F.outside files.old) (F.outside files.new) result }
    ensures complete { (script out trace : List ℕ) → IsNormalise words.now script out trace → NormaliseCompletes script out trace (F.outside files.old) (F.outside files.new) result }
    ensures touches { (script out trace : List ℕ) → IsNormalise words.now script out trace → Touches (normalise_files script out trace) (F.outside files.old) (F.outside files.new) }
    ensures lift { (script trace answer out : List ℕ) → IsLift words.now script trace answer out → LiftComes script trace answer out (F.outside files.old) (F.outside files.new) result }
    ensures lift_complete { (script trace answer out : List ℕ) → IsLift words.now script trace answer out → LiftCompletes script trace answer out (F.outside files.old) (F.outside files.new) result }
    ensures lift_touches { (script trace answer out : List ℕ) → IsLift words.now script trace answer out → Touches (lift_files script trace answer out) (F.outside files.old) (F.outside files.new) }
    ensures line { HasPut (line result) (K.output say.old) (K.output say.new) ⊎ HasFailed (line result) (K.output say.old) (K.output say.new) }
{
    liftable_is_lifted();
    let status = answer(alloc, words, files);
    let _ = put_line(say, &status);
    status
}
