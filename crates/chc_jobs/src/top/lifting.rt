//! `lift` over files.

ghost use Rattle.std.specs.Prelude.{◌≢◌, ◌≡◌, ◌≤◌, ◌<◌, ◌^◌, [], ◌∷◌, length, IfOk, IfErr};
ghost use Rattle.chc_source.specs.Outside.{bytes_at};
ghost use Rattle.chc_jobs.specs.Lifting.{LiftsModel};
ghost use Rattle.chc_jobs.specs.Runs.{most_bytes, Told, Touches, LiftRefuses, LiftComes, AreShort, lift_files, lift_job};
ghost use Rattle.chc_jobs.specs.Refusals.{BytesRefusal, ReadRefusal, InputRefusal, OnlyReadsAll, AreRead};

use super::command::LiftNames;
use super::files::{read_word, write_word};
use super::status::{Outcome, Status};
use crate::lift::{LiftErr, Lifted, lift};
use chc_source::{ByteText, Files};
use std::alloc::Global;

/// The bytes of a script, a trace and an answer.
#[derive(Drop)]
struct Inputs {
    script: ByteText,
    trace: ByteText,
    answer: ByteText,
}

/// Carries the answer back to the script, or gives the status that the run comes to.
fn lift_bytes(alloc: Global, inputs: &Inputs) -> Result<Lifted, Status>
    requires script { length inputs.now.script < 2 ^ 32 }
    requires trace { length inputs.now.trace < 2 ^ 32 }
    requires answer { length inputs.now.answer < 2 ^ 32 }
    ensures ok { IfOk result (λ l. LiftsModel inputs.now.script inputs.now.trace inputs.now.answer l.text l.count) }
    ensures refused { IfErr result (BytesRefusal (LiftRefuses inputs.now.script inputs.now.trace inputs.now.answer)) }
{
    let script = inputs.script.bytes();
    let trace = inputs.trace.bytes();
    let answer = inputs.answer.bytes();
    match lift(alloc, script, trace, answer) {
        Ok(lifted) => Ok(lifted),
        Err(LiftErr::Script(fault)) => Err(Status::ScriptRefused(fault)),
        Err(LiftErr::Trace(fault)) => Err(Status::TraceRefused(fault)),
        Err(LiftErr::Foreign(foreign)) => Err(Status::Foreign(foreign)),
        Err(LiftErr::Answer(fault)) => Err(Status::AnswerRefused(fault)),
        Err(LiftErr::NoMemory) => Err(Status::NoMemory),
    }
}

/// Reads the three inputs in order, or gives the status that the run comes to.
fn read_inputs<F: Files>(
    alloc: Global,
    files: &mut F,
    names: &LiftNames<'_>,
) -> Result<Inputs, Status>
    ensures read { IfOk result (λ i. AreRead (lift_files names.now.script.now names.now.trace.now names.now.answer.now names.now.out.now).inputs (i.script ∷ i.trace ∷ i.answer ∷ []) (F.outside files.old)) }
    ensures refused { IfErr result (ReadRefusal (lift_files names.now.script.now names.now.trace.now names.now.answer.now names.now.out.now).inputs (F.outside files.old) (F.outside files.new)) }
    ensures only { OnlyReadsAll (lift_files names.now.script.now names.now.trace.now names.now.answer.now names.now.out.now).inputs (F.outside files.old) (F.outside files.new) }
{
    let script = read_word(alloc, files, names.script, 1)?;
    let trace = read_word(alloc, files, names.trace, 2)?;
    let answer = read_word(alloc, files, names.answer, 3)?;
    Ok(Inputs {
        script,
        trace,
        answer,
    })
}

/// Reads the three inputs and carries the answer back, or gives the status that the run comes to.
fn make_text<F: Files>(
    alloc: Global,
    files: &mut F,
    names: &LiftNames<'_>,
) -> Result<Lifted, Status>
    ensures short { IfOk result (λ l. Told (F.outside files.old) (AreShort (lift_files names.now.script.now names.now.trace.now names.now.answer.now names.now.out.now).inputs (F.outside files.old))) }
    ensures made { IfOk result (λ l. Told (F.outside files.old) (LiftsModel (bytes_at (F.outside files.old) names.now.script.now) (bytes_at (F.outside files.old) names.now.trace.now) (bytes_at (F.outside files.old) names.now.answer.now) l.text l.count)) }
    ensures refused { IfErr result (InputRefusal (lift_files names.now.script.now names.now.trace.now names.now.answer.now names.now.out.now) (lift_job (bytes_at (F.outside files.old) names.now.script.now) (bytes_at (F.outside files.old) names.now.trace.now) (bytes_at (F.outside files.old) names.now.answer.now)) (F.outside files.old) (F.outside files.new)) }
    ensures only { OnlyReadsAll (lift_files names.now.script.now names.now.trace.now names.now.answer.now names.now.out.now).inputs (F.outside files.old) (F.outside files.new) }
{
    let inputs = read_inputs(alloc, files, names)?;
    let lifted = lift_bytes(alloc, &inputs)?;
    Ok(lifted)
}

/// Carries the answer of these names back to the script, or gives the status that the run comes to.
pub(crate) fn run_lift<F: Files>(
    alloc: Global,
    files: &mut F,
    names: &LiftNames<'_>,
) -> Result<Outcome, Status>
    ensures done { IfOk result (λ o. LiftComes names.now.script.now names.now.trace.now names.now.answer.now names.now.out.now (F.outside files.old) (F.outside files.new) (Status.Done o)) }
    ensures refused { IfErr result (LiftComes names.now.script.now names.now.trace.now names.now.answer.now names.now.out.now (F.outside files.old) (F.outside files.new)) }
    ensures touches { Touches (lift_files names.now.script.now names.now.trace.now names.now.answer.now names.now.out.now) (F.outside files.old) (F.outside files.new) }
{
    let lifted = make_text(alloc, files, names)?;
    write_word(alloc, files, names.out, 4, lifted.text.bytes())?;
    Ok(Outcome::Lifted {
        definitions: lifted.count,
    })
}
