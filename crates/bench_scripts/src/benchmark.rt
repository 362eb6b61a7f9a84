//! Benchmarks: what is read, printed or normalised, and what it comes to.

use crate::failure::Failure;
use crate::outcome::{Outcome, Phases};
use crate::texts::{Ends, chain};
use chc_print::script_text;
use chc_script::{Script, read_script};
use chc_state::State;
use chc_steps::normal;
use std::alloc::Global;
use std::time::CpuClock;

/// How many bytes a text may have.
const MOST_BYTES: usize = 20_000_000;

/// How many predicates and clauses a chain may have.
const MOST_CLAUSES: u32 = 65_000;

/// What is measured.
#[derive(Debug, Drop)]
pub enum Benchmark {
    /// Reading a script with so many clauses.
    Read(u32),
    /// Reading it, and making the text of its state.
    Print(u32),
    /// Reading a script with so many predicates and these ends, and normalising its state.
    Normal(Ends, u32),
}

/// The benchmark of a kind and a size, if there is one.
pub fn benchmark_of(kind: &str, size: &str) -> Option<Benchmark> {
    let size = size.parse::<u32>().ok()?;
    if size > MOST_CLAUSES {
        return None;
    }
    match kind {
        "read" => Some(Benchmark::Read(size)),
        "print" => Some(Benchmark::Print(size)),
        "steps" => Some(Benchmark::Normal(Ends::Both, size)),
        "unreached" => Some(Benchmark::Normal(Ends::Last, size)),
        "unneeded" => Some(Benchmark::Normal(Ends::First, size)),
        _ => None,
    }
}

/// The script of a text. Errors: `TooLong`, `Refused`, `NoMemory`.
fn script_of(alloc: Global, text: &str) -> Result<Script, Failure> {
    if text.len() > MOST_BYTES {
        return Err(Failure::TooLong);
    }
    Ok(read_script(alloc, text.as_bytes())?)
}

/// The script of a chain of so many predicates. Errors: `TooLong`, `Refused`, `NoMemory`.
fn chained(alloc: Global, count: u32) -> Result<Script, Failure> {
    let text = chain(alloc, Ends::Both, count)?;
    script_of(alloc, text.as_str())
}

/// How many clauses a state has.
fn clauses_in(state: &State) -> u64 {
    state.clauses().len() as u64
}

/// How many clauses the script of a chain has. Errors: `TooLong`, `Refused`, `NoMemory`.
fn count_of_clauses(alloc: Global, count: u32) -> Result<u64, Failure> {
    let script = chained(alloc, count)?;
    Ok(clauses_in(&script.state))
}

/// How many bytes the text of a chain's state has. Errors: `TooLong`, `Refused`, `NoMemory`.
fn size_of_text(alloc: Global, count: u32) -> Result<u64, Failure> {
    let script = chained(alloc, count)?;
    let text = script_text(alloc, &script.state, &script.names)?;
    Ok(text.len() as u64)
}

/// What normalising the state of a chain comes to, with the time of its phases. Errors: `TooLong`, `Refused`, `NoClock`,
/// `NoMemory`.
fn phases_of<R: CpuClock>(
    clock: &R,
    alloc: Global,
    ends: Ends,
    count: u32,
) -> Result<Phases, Failure> {
    let text = chain(alloc, ends, count)?;
    let begun = clock.process_cpu_time()?;
    let script = script_of(alloc, text.as_str())?;
    let read = clock.process_cpu_time()?;
    let before = clauses_in(&script.state);
    let (last, run) = normal(alloc, script.state)?;
    let ended = clock.process_cpu_time()?;
    Ok(Phases {
        before,
        after: clauses_in(&last),
        steps: run.steps.len() as u64,
        read_millis: read.saturating_sub(begun).as_millis(),
        normal_millis: ended.saturating_sub(read).as_millis(),
    })
}

/// What a benchmark comes to. Errors: `TooLong`, `Refused`, `NoClock`, `NoMemory`.
pub fn result_of<R: CpuClock>(
    clock: &R,
    alloc: Global,
    benchmark: &Benchmark,
) -> Result<Outcome, Failure> {
    match benchmark {
        Benchmark::Read(count) => Ok(Outcome::Number(count_of_clauses(alloc, *count)?)),
        Benchmark::Print(count) => Ok(Outcome::Number(size_of_text(alloc, *count)?)),
        Benchmark::Normal(ends, count) => {
            Ok(Outcome::Normal(phases_of(clock, alloc, *ends, *count)?))
        }
    }
}
