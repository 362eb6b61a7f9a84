//! Carrying a model answer back to the script.

ghost use Rattle.std.specs.Prelude.{◌≡◌, ◌<◌, ◌^◌, length, Ok, IfOk, IfErr, IsTrue, ◌↔◌};
ghost use Rattle.chc_state.specs.Definitions.{Defines};
ghost use Rattle.chc_state.specs.Names.{AreNamesOf};
ghost use Rattle.chc_script.specs.Assertions.{KeepsAssertions};
ghost use Rattle.chc_steps.specs.Kinds.{after, StandsFor};
ghost use Rattle.chc_steps.specs.Runs.{Stand};
ghost use Rattle.chc_trace.specs.Traces.{IsTraceReading};
ghost use Rattle.ans_model.specs.Answers.{IsModelReading};
ghost use Rattle.chc_jobs.specs.Jobs.{ReadsAs, GoesOver, Belongs};
ghost use Rattle.chc_jobs.specs.Lifting.{IsOpened, IsCarried, IsFinished, IsModelPrinted, LiftsModel};
ghost use Rattle.chc_jobs.specs.LiftFaults.{IsScriptErr, IsTraceErr, IsAnswerErr, IsStepsErr, IsTraceRefusal, IsOwnTraceErr, IsLiftRefusal};

use super::foreign::Foreign;
use super::reading::read_model;
use super::steps::{Replayed, replay, take_back};
use ans_model::defs_text;
use chc_print::script_text;
use chc_script::{Script, read_script};
use chc_sexpr::{TextErr, TextFault};
use chc_sorts::NoMemory;
use chc_source::ByteText;
use chc_state::{Defs, Names, State, Step};
use chc_steps::{ReplayErr, last_state_is_one};
use chc_trace::{Trace, digest, read_trace};
use std::alloc::Global;

/// An answer that was carried back to the script.
#[derive(Debug, Drop)]
pub struct Lifted {
    /// The text of the definitions.
    pub text: ByteText,
    /// How many definitions there are.
    pub count: u64,
}

/// Why an answer wasn't carried back.
#[derive(Debug, Drop)]
pub enum LiftErr {
    /// The script's bytes are no script: their first fault.
    Script(TextFault),
    /// The trace's bytes say no trace: their first fault.
    Trace(TextFault),
    /// The trace isn't the script's.
    Foreign(Foreign),
    /// The answer's bytes say no definitions of the predicates that the steps leave: their first fault.
    Answer(TextFault),
    /// Memory was refused.
    NoMemory,
}

impl From<NoMemory> for LiftErr {
    ghost use Rattle.std.specs.Prelude.{◌≡◌};
    ghost use Rattle.chc_jobs.specs.declared.lift.model.LiftErr.TheVariants.{NoMemory as refused};

    ghost from_gives = { λ _ made. made ≡ refused };

    fn from(_refused: NoMemory) -> LiftErr {
        LiftErr::NoMemory
    }
}

/// The script of the bytes.
fn open_script(alloc: Global, script: &[u8]) -> Result<Script, LiftErr>
    requires { length script.now < 2 ^ 32 }
    ensures ok { IfOk result (ReadsAs script.now) }
    ensures names { IfOk result (λ X. AreNamesOf X.state X.names) }
    ensures assertions { IfOk result KeepsAssertions }
    ensures refused { IfErr result (IsScriptErr script.now) }
{
    match read_script(alloc, script) {
        Ok(read) => Ok(read),
        Err(TextErr::At(fault)) => Err(LiftErr::Script(fault)),
        Err(TextErr::NoMemory) => Err(LiftErr::NoMemory),
    }
}

/// The trace of the bytes.
fn open_trace(alloc: Global, trace: &[u8]) -> Result<Trace, LiftErr>
    requires { length trace.now < 2 ^ 32 }
    ensures ok { IfOk result (λ t. IsTraceReading trace.now (Ok t)) }
    ensures refused { IfErr result (IsTraceErr trace.now) }
{
    match read_trace(alloc, trace) {
        Ok(read) => Ok(read),
        Err(TextErr::At(fault)) => Err(LiftErr::Trace(fault)),
        Err(TextErr::NoMemory) => Err(LiftErr::NoMemory),
    }
}

/// The definitions that the answer says of a state's predicates.
fn open_answer(alloc: Global, answer: &[u8], state: &State, names: &Names) -> Result<Defs, LiftErr>
    requires { length answer.now < 2 ^ 32 }
    ensures says { IfOk result (λ d. IsModelReading state.now names.now answer.now (Ok d)) }
    ensures defines { IfOk result (λ d. Defines d state.now) }
    ensures refused { IfErr result (IsAnswerErr answer.now state.now names.now) }
{
    match read_model(alloc, answer, state, names) {
        Ok(read) => Ok(read),
        Err(TextErr::At(fault)) => Err(LiftErr::Answer(fault)),
        Err(TextErr::NoMemory) => Err(LiftErr::NoMemory),
    }
}

/// The run that the steps are on the script's state, and the state that they lead to.
fn take_again(alloc: Global, script: &Script, steps: &[Step]) -> Result<Replayed, LiftErr>
    ensures goes { IfOk result (λ r. GoesOver script.now.state steps.now r.state) }
    ensures steps { IfOk result (λ r. r.run.steps ≡ steps.now) }
    ensures stand { IfOk result (λ r. Stand after StandsFor r.run.undos script.now.state steps.now) }
    ensures refused { IfErr result (IsStepsErr script.now.state steps.now) }
{
    match replay(alloc, &script.state, steps) {
        Ok(replayed) => Ok(replayed),
        Err(ReplayErr::NotLegal(k)) => Err(LiftErr::Foreign(Foreign::Step(k))),
        Err(ReplayErr::NoMemory) => Err(LiftErr::NoMemory),
    }
}

/// Whether the digest is the one that is kept.
fn is_kept(kept: &[u8; 32], found: &[u8; 32]) -> bool
    ensures { IsTrue result ↔ (kept.now ≡ found.now) }
{
    kept == found
}

/// Whether the text is the target.
fn is_target(text: &ByteText, target: &ByteText) -> bool
    ensures { IsTrue result ↔ (text.now ≡ target.now) }
{
    text.bytes() == target.bytes()
}

/// Replays the trace on the script of these bytes: the run that it is, and the state that it leads to.
fn follow(alloc: Global, bytes: &[u8], script: &Script, trace: Trace) -> Result<Replayed, LiftErr>
    ensures steps { IfOk result (λ r. r.run.steps ≡ trace.steps) }
    ensures belongs { IfOk result (λ r. Belongs bytes.now script.now.names script.now.state trace r.state) }
    ensures stand { IfOk result (λ r. Stand after StandsFor r.run.undos script.now.state trace.steps) }
    ensures refused { IfErr result (IsTraceRefusal bytes.now script.now trace) }
{
    let found = digest(bytes);
    if !is_kept(&trace.source, &found) {
        return Err(LiftErr::Foreign(Foreign::Source(trace.source, found)));
    }
    let replayed = take_again(alloc, script, trace.steps.as_slice())?;
    let text = script_text(alloc, &replayed.state, &script.names)?;
    if !is_target(&text, &trace.target) {
        return Err(LiftErr::Foreign(Foreign::Target(trace.target, text)));
    }
    Ok(replayed)
}

/// The script's trace, replayed.
fn open_own_trace(
    alloc: Global,
    bytes: &[u8],
    script: &Script,
    trace: &[u8],
) -> Result<Replayed, LiftErr>
    requires script { ReadsAs bytes.now script.now }
    requires short { length trace.now < 2 ^ 32 }
    ensures ok { IfOk result (λ r. IsOpened bytes.now trace.now script.now r.run.steps r.run.undos r.state) }
    ensures refused { IfErr result (IsOwnTraceErr bytes.now trace.now) }
{
    let read = open_trace(alloc, trace)?;
    let replayed = follow(alloc, bytes, script, read)?;
    Ok(replayed)
}

/// The definitions of the script's predicates that the answer comes to.
fn carry(
    alloc: Global,
    script: &Script,
    replayed: &Replayed,
    answer: &[u8],
) -> Result<Defs, LiftErr>
    requires short { length answer.now < 2 ^ 32 }
    requires assertions { KeepsAssertions script.now }
    requires goes { GoesOver script.now.state replayed.now.run.steps replayed.now.state }
    requires stand { Stand after StandsFor replayed.now.run.undos script.now.state replayed.now.run.steps }
    ensures ok { IfOk result (IsCarried answer.now script.now replayed.now.run.steps replayed.now.state) }
    ensures refused { IfErr result (IsAnswerErr answer.now replayed.now.state script.now.names) }
{
    last_state_is_one();
    let defs = open_answer(alloc, answer, &replayed.state, &script.names)?;
    let made = take_back(alloc, &replayed.run, defs)?;
    Ok(made)
}

/// The text of definitions of the script's predicates.
fn print_model(alloc: Global, script: &Script, defs: &Defs) -> Result<Lifted, NoMemory>
    requires defines { Defines defs.now script.now.state }
    requires names { AreNamesOf script.now.state script.now.names }
    ensures printed { IfOk result (λ l. IsModelPrinted script.now defs.now l.text) }
    ensures counted { IfOk result (λ l. l.count ≡ length defs.now.list) }
{
    let text = defs_text(alloc, defs, &script.state, &script.names)?;
    Ok(Lifted {
        text,
        count: defs.list.len() as u64,
    })
}

/// What the answer comes to on the script and the run of its trace.
fn carry_and_print(
    alloc: Global,
    script: &Script,
    replayed: &Replayed,
    answer: &[u8],
) -> Result<Lifted, LiftErr>
    requires short { length answer.now < 2 ^ 32 }
    requires names { AreNamesOf script.now.state script.now.names }
    requires assertions { KeepsAssertions script.now }
    requires goes { GoesOver script.now.state replayed.now.run.steps replayed.now.state }
    requires stand { Stand after StandsFor replayed.now.run.undos script.now.state replayed.now.run.steps }
    ensures ok { IfOk result (λ l. IsFinished answer.now script.now replayed.now.run.steps replayed.now.state l.text l.count) }
    ensures refused { IfErr result (IsAnswerErr answer.now replayed.now.state script.now.names) }
{
    let defs = carry(alloc, script, replayed, answer)?;
    let lifted = print_model(alloc, script, &defs)?;
    Ok(lifted)
}

/// Carries a model answer for the printed script back to the script: replays the trace on the script,
/// checks that it is the script's own, reads the definitions that the answer says of the predicates that
/// its steps leave, takes them back over the steps, and writes them as a model of the script. Each text
/// has at most 4,294,967,295 bytes.
///
/// In every world in which the answer's definitions make the printed clauses true, the written ones make the
/// script's clauses true, and its assertions where they have a value everywhere. Any legal steps of the script
/// whose last state has the target as its text are the script's own, in whatever order they stand. The text is read
/// again as the written definitions where they are within the limits of answers.
///
/// Errors, judged in this order: `Script` where the script's bytes are none, `Trace` where the trace's are none, each with the
/// first fault; `Foreign` where the trace isn't the script's: its digest, then its steps, then its target; `Answer` with the
/// first fault, where an answer that begins with the symbol `unsat` has the fault `NotYet` there; and `NoMemory`.
pub fn lift(alloc: Global, script: &[u8], trace: &[u8], answer: &[u8]) -> Result<Lifted, LiftErr>
    requires script { length script.now < 2 ^ 32 }
    requires trace { length trace.now < 2 ^ 32 }
    requires answer { length answer.now < 2 ^ 32 }
    ensures ok { IfOk result (λ l. LiftsModel script.now trace.now answer.now l.text l.count) }
    ensures refused { IfErr result (IsLiftRefusal script.now trace.now answer.now) }
{
    let read = open_script(alloc, script)?;
    let replayed = open_own_trace(alloc, script, &read, trace)?;
    let lifted = carry_and_print(alloc, &read, &replayed, answer)?;
    Ok(lifted)
}
