//! `normalise` over files.

ghost use Rattle.std.specs.Prelude.{◌≢◌, ◌≡◌, ◌<◌, ◌^◌, [], ◌∷◌, length, IfOk, IfErr, OnOk};
ghost use Rattle.chc_source.specs.Outside.{bytes_at, OnlyReads};
ghost use Rattle.chc_jobs.specs.Jobs.{Normalises};
ghost use Rattle.chc_jobs.specs.Runs.{Told, Touches, HoldTexts, NormaliseMakes, NormaliseRefuses, NormaliseComes, AreShort, normalise_files, normalise_job};
ghost use Rattle.chc_jobs.specs.Refusals.{BytesRefusal, InputRefusal, OutputRefusal};

use super::command::NormaliseNames;
use super::files::{read_word, write_word};
use super::status::{Outcome, Status};
use crate::lift::{Normalised, normalise};
use chc_sexpr::TextErr;
use chc_source::Files;
use std::alloc::Global;

/// Normalises a script's bytes, or gives the status that the run comes to.
fn normalise_bytes(alloc: Global, script: &[u8]) -> Result<Normalised, Status>
    requires { length script.now < 2 ^ 32 }
    ensures ok { IfOk result (λ n. Normalises script.now n.out n.trace n.before n.after n.steps) }
    ensures refused { IfErr result (BytesRefusal (NormaliseRefuses script.now)) }
{
    match normalise(alloc, script) {
        Ok(made) => Ok(made),
        Err(TextErr::At(fault)) => Err(Status::ScriptRefused(fault)),
        Err(TextErr::NoMemory) => Err(Status::NoMemory),
    }
}

/// Reads the script's file and normalises it, or gives the status that the run comes to.
fn make_texts<F: Files>(
    alloc: Global,
    files: &mut F,
    names: &NormaliseNames<'_>,
) -> Result<Normalised, Status>
    ensures short { IfOk result (λ n. Told (F.outside files.old) (AreShort (normalise_files names.now.script.now names.now.out.now names.now.trace.now).inputs (F.outside files.old))) }
    ensures made { IfOk result (λ n. Told (F.outside files.old) (Normalises (bytes_at (F.outside files.old) names.now.script.now) n.out n.trace n.before n.after n.steps)) }
    ensures refused { IfErr result (InputRefusal (normalise_files names.now.script.now names.now.out.now names.now.trace.now) (normalise_job (bytes_at (F.outside files.old) names.now.script.now)) (F.outside files.old) (F.outside files.new)) }
    ensures only { OnlyReads names.now.script.now (F.outside files.old) (F.outside files.new) }
{
    let text = read_word(alloc, files, names.script, 1)?;
    let made = normalise_bytes(alloc, text.bytes())?;
    Ok(made)
}

/// Writes both outputs, or gives the status that the run comes to.
fn write_texts<F: Files>(
    alloc: Global,
    files: &mut F,
    names: &NormaliseNames<'_>,
    made: &Normalised,
) -> Result<(), Status>
    requires { names.now.trace.now ≢ names.now.out.now }
    ensures whole { OnOk result (Told (F.outside files.old) (HoldTexts (normalise_files names.now.script.now names.now.out.now names.now.trace.now).outputs (made.now.out ∷ made.now.trace ∷ []) (F.outside files.new))) }
    ensures refused { IfErr result (OutputRefusal (normalise_files names.now.script.now names.now.out.now names.now.trace.now).outputs (made.now.out ∷ made.now.trace ∷ []) (F.outside files.old) (F.outside files.new)) }
    ensures touches { Touches (normalise_files names.now.script.now names.now.out.now names.now.trace.now) (F.outside files.old) (F.outside files.new) }
{
    write_word(alloc, files, names.out, 2, made.out.bytes())?;
    write_word(alloc, files, names.trace, 3, made.trace.bytes())?;
    Ok(())
}

/// Normalises the script of these names, or gives the status that the run comes to.
pub(crate) fn run_normalise<F: Files>(
    alloc: Global,
    files: &mut F,
    names: &NormaliseNames<'_>,
) -> Result<Outcome, Status>
    requires { names.now.trace.now ≢ names.now.out.now }
    ensures done { IfOk result (λ o. NormaliseComes names.now.script.now names.now.out.now names.now.trace.now (F.outside files.old) (F.outside files.new) (Status.Done o)) }
    ensures refused { IfErr result (NormaliseComes names.now.script.now names.now.out.now names.now.trace.now (F.outside files.old) (F.outside files.new)) }
    ensures touches { Touches (normalise_files names.now.script.now names.now.out.now names.now.trace.now) (F.outside files.old) (F.outside files.new) }
{
    let made = make_texts(alloc, files, names)?;
    write_texts(alloc, files, names, &made)?;
    Ok(Outcome::Normalised {
        before: made.before,
        after: made.after,
        steps: made.steps,
    })
}
