//! A benchmark of the reader of scripts, of their text and of normalising them. `bench_scripts read N` reads a script with a
//! chain of N predicates and N clauses, and prints how many clauses it has. `bench_scripts print N` reads it and prints how
//! many bytes the text of its state has. `bench_scripts steps N` reads a script with such a chain and normalises its state,
//! and prints the number of clauses before and after, that of the steps, and the processor time of both phases. With
//! `unreached` or `unneeded` in place of `steps` no derivation reaches a predicate of the chain, or no query needs one.
#![tactic(auto)]

mod benchmark;
mod failure;
mod outcome;
mod texts;

use crate::benchmark::{Benchmark, benchmark_of, result_of};
use crate::failure::Failure;
use crate::outcome::Outcome;
use chc_sorts::NoMemory;
use std::alloc::Global;
use std::io::ErrorKind;
use std::process::ExitCode;
use std::rt::Env;
use std::time::CpuClock;
use std::{env, io};

/// The exit status where there is nothing to print.
const FAILED: u8 = 1;

/// The benchmark that the words after the program's name ask for, or `None` where they ask for none.
fn asked<R: Env + AllocGlobal>(rt: &R, alloc: Global) -> Result<Option<Benchmark>, NoMemory> {
    match env::args(rt) {
        Ok(args) => {
            let words: Vec<String> = args.skip(1).collect(alloc)?;
            match words.as_slice() {
                [kind, size] => Ok(benchmark_of(kind.as_str(), size.as_str())),
                _ => Ok(None),
            }
        }
        Err(error) if error.kind() == ErrorKind::OutOfMemory => Err(NoMemory),
        Err(_) => Ok(None),
    }
}

/// What the benchmark comes to.
fn measured<R: Env + AllocGlobal + CpuClock>(rt: &R) -> Result<Outcome, Failure> {
    let alloc = rt.alloc();
    match asked(rt, alloc)? {
        Some(benchmark) => result_of(rt, alloc, &benchmark),
        None => Err(Failure::NoBenchmark),
    }
}

/// Prints what it came to, or why it came to nothing.
fn told<R: Print>(rt: &R, outcome: &Result<Outcome, Failure>) -> io::Result<()> {
    match outcome {
        Ok(outcome) => println!(rt; "{outcome}"),
        Err(failure) => println!(rt; "{failure}"),
    }
}

fn main(rt: HostRuntime) -> ExitCode {
    let outcome = measured(&rt);
    let printed = told(&rt, &outcome);
    if outcome.is_ok() && printed.is_ok() {
        ExitCode::SUCCESS
    } else {
        ExitCode::from(FAILED)
    }
}
