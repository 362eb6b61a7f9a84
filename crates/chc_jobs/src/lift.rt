//! The jobs over byte lists.

mod copying;
mod foreign;
mod model;
mod reading;
mod steps;

ghost use Rattle.std.specs.Prelude.{◌≡◌, ◌<◌, ◌^◌, length, Err, IfOk, IfErr};
ghost use Rattle.sha2.specs.Sha256.{sha256};
ghost use Rattle.chc_trace.specs.Traces.{trace_lines, SaysTrace};
ghost use Rattle.chc_state.specs.Names.{AreNamesOf};
ghost use Rattle.chc_script.specs.WholeScripts.{IsScriptReading};
ghost use Rattle.chc_print.specs.Script.{IsScriptText};
ghost use Rattle.chc_jobs.specs.Jobs.{Finishes, Normalises, SaysItself};

use chc_print::script_text;
use chc_script::{Script, read_script};
use chc_sexpr::TextErr;
use chc_sorts::List;
use chc_source::{ByteText, NoMemory};
use chc_state::{Names, State, Step};
use chc_trace::{Trace, digest, trace_text};
pub use foreign::Foreign;
pub use model::{LiftErr, Lifted, lift};
use read_again::printed_scripts_are_read;
use std::alloc::Global;
use steps::simplify;

/// A normalised script.
#[derive(Debug, Drop)]
pub struct Normalised {
    /// The text of the simplified script.
    pub out: ByteText,
    /// The text of the trace that leads there.
    pub trace: ByteText,
    /// How many clauses the script has.
    pub before: u32,
    /// How many clauses the simplified one has.
    pub after: u32,
    /// How many steps were taken.
    pub steps: u64,
}

/// The two texts that a job writes.
#[derive(Drop)]
struct Texts {
    out: ByteText,
    trace: ByteText,
}

/// The text of the trace of these steps beside the text that they lead to.
fn traced(alloc: Global, script: &[u8], steps: List<Step>, out: ByteText) -> Result<Texts, NoMemory>
    ensures same { IfOk result (λ t. t.out ≡ out) }
    ensures tells { IfOk result (λ t. t.trace ≡ trace_lines (record { source = sha256 script.now; steps = steps; target = out })) }
    ensures says { IfOk result (λ t. SaysTrace t.trace (record { source = sha256 script.now; steps = steps; target = out })) }
{
    let source = digest(script);
    let trace = Trace {
        source,
        steps,
        target: out,
    };
    let text = trace_text(alloc, &trace)?;
    Ok(Texts {
        out: trace.target,
        trace: text,
    })
}

/// The text of the state's script, which says the script again.
fn print_script(alloc: Global, state: &State, names: &Names) -> Result<ByteText, NoMemory>
    requires { AreNamesOf state.now names.now }
    ensures text { IfOk result (IsScriptText state.now names.now) }
    ensures again { IfOk result (SaysItself state.now names.now) }
{
    printed_scripts_are_read();
    state.sig().made_of_groups();
    let _clauses = state.clauses();
    let text = script_text(alloc, state, names)?;
    Ok(text)
}

/// How many clauses the state has: at most 65,536.
fn clause_count(state: &State) -> u32
    ensures { result ≡ length state.now.clauses }
{
    let clauses = state.clauses();
    clauses.len() as u32
}

/// The text of the state in which no kind of step is left to take, and the trace that leads there.
fn finish(alloc: Global, script: &[u8], names: &Names, state: State) -> Result<Normalised, NoMemory>
    requires { AreNamesOf state names.now }
    ensures { IfOk result (λ n. Finishes script.now names.now state n.out n.trace n.before n.after n.steps) }
{
    let before = clause_count(&state);
    let simplified = simplify(alloc, state)?;
    let after = clause_count(&simplified.state);
    let steps = simplified.steps.len() as u64;
    let out = print_script(alloc, &simplified.state, names)?;
    let texts = traced(alloc, script, simplified.steps, out)?;
    Ok(Normalised {
        out: texts.out,
        trace: texts.trace,
        before,
        after,
        steps,
    })
}

/// Simplifies a script of at most 4,294,967,295 bytes without changing its answer: in every world false
/// is derived from the printed clauses exactly where it is from the script's. The trace is the script's own.
///
/// Errors: `At` the first fault where the bytes are no script, `NoMemory`.
pub fn normalise(alloc: Global, script: &[u8]) -> Result<Normalised, TextErr>
    requires { length script.now < 2 ^ 32 }
    ensures ok { IfOk result (λ n. Normalises script.now n.out n.trace n.before n.after n.steps) }
    ensures refused { IfErr result (λ e. IsScriptReading script.now (Err e)) }
{
    let Script { state, names, .. } = read_script(alloc, script)?;
    let made = finish(alloc, script, &names, state)?;
    Ok(made)
}
