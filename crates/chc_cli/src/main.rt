//! The program `chc`: a normaliser of constrained Horn clauses, which carries models of the simplified script
//! back to the script. `chc normalise SCRIPT OUT TRACE` simplifies a script, and `chc lift SCRIPT TRACE ANSWER OUT`
//! makes a model of the script from an answer for the simplified one. All work is done by `run`.
#![tactic(auto)]

use chc_jobs::top::{Word, run};
use chc_source::{NoMemory, RealFiles, StdSink};
use std::alloc::Global;
use std::env;
use std::io::ErrorKind;
use std::process::ExitCode;
use std::rt::Env;

/// The exit status where no memory is found for the words.
const NO_MEMORY: u8 = 11;

/// The words after the program's name. Where one of them isn't UTF-8 there are none.
fn words_of<R: Env + AllocGlobal>(rt: &R, alloc: Global) -> Result<Vec<Word>, NoMemory> {
    let mut words = Vec::new(alloc);
    match env::args(rt) {
        Ok(args) => {
            for text in args.skip(1) {
                words.push(Word::from_text(alloc, text.as_str())?)?;
            }
            Ok(words)
        }
        Err(error) if error.kind() == ErrorKind::OutOfMemory => Err(NoMemory),
        Err(_) => Ok(words),
    }
}

fn main(rt: HostRuntime) -> ExitCode {
    let alloc = rt.alloc();
    match words_of(&rt, alloc) {
        Ok(words) => {
            let mut files = RealFiles::new(&rt, alloc);
            let mut say = StdSink::new(&rt);
            let status = run(alloc, words.as_slice(), &mut files, &mut say);
            ExitCode::from(status.code())
        }
        Err(NoMemory) => ExitCode::from(NO_MEMORY),
    }
}
