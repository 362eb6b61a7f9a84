//! The one line that a run prints.

ghost use Rattle.std.specs.Prelude.{◌≡◌, decimal};
ghost use Rattle.chc_sexpr.specs.Symbols.{symbol_text};
ghost use Rattle.chc_jobs.specs.Lines.{line, words_of, counted, outcome_line, is_about_name, reason, fault_line, foreign_line, Puts};

use super::status::{Outcome, Status};
use crate::lift::Foreign;
use chc_sexpr::{Fault, TextFault, is_bare};
use chc_source::{Failed, Sink};
use itoa::Buffer;

/// Puts all of the bytes, in as many pieces as the sink wants.
fn put_all<K: Sink>(say: &mut K, bytes: &[u8]) -> Result<(), Failed>
    ensures { Puts bytes.now (K.output say.old) result (K.output say.new) }
{
    let mut done = 0;
    while done < bytes.len() {
        done += say.put(&bytes[done..])?;
    }
    Ok(())
}

/// Puts a number in decimal.
fn put_number<K: Sink>(say: &mut K, n: u64) -> Result<(), Failed>
    ensures { Puts (decimal n) (K.output say.old) result (K.output say.new) }
{
    let mut buffer = Buffer::new();
    put_all(say, buffer.format(n).as_bytes())
}

/// Puts a text and a number after it.
fn put_counted<K: Sink>(say: &mut K, text: &[u8], n: u64) -> Result<(), Failed>
    ensures { Puts (counted text.now n) (K.output say.old) result (K.output say.new) }
{
    put_all(say, text)?;
    put_number(say, n)
}

/// Puts the numbers of a normalised script.
fn put_normalised<K: Sink>(say: &mut K, before: u64, after: u64, steps: u64) -> Result<(), Failed>
    ensures { Puts (outcome_line (Outcome.Normalised before after steps)) (K.output say.old) result (K.output say.new) }
{
    put_counted(say, b"normalised: clauses ", before)?;
    put_counted(say, b" to ", after)?;
    put_counted(say, b", steps ", steps)
}

/// Puts what was done.
fn put_outcome<K: Sink>(say: &mut K, outcome: &Outcome) -> Result<(), Failed>
    ensures { Puts (outcome_line outcome.now) (K.output say.old) result (K.output say.new) }
{
    match outcome {
        Outcome::Normalised {
            before,
            after,
            steps,
        } => put_normalised(say, *before as u64, *after as u64, *steps),
        Outcome::Lifted { definitions } => {
            put_counted(say, b"lifted: sat, definitions ", *definitions)
        }
    }
}

/// Puts why a trace isn't the script's.
fn put_foreign<K: Sink>(say: &mut K, foreign: &Foreign) -> Result<(), Failed>
    ensures { Puts (foreign_line foreign.now) (K.output say.old) result (K.output say.new) }
{
    match foreign {
        Foreign::Source(_, _) => put_all(say, b"foreign trace: source"),
        Foreign::Step(k) => put_counted(say, b"foreign trace: step ", *k),
        Foreign::Target(_, _) => put_all(say, b"foreign trace: target"),
    }
}

/// Puts a name as a symbol.
fn put_symbol<K: Sink>(say: &mut K, name: &[u8]) -> Result<(), Failed>
    ensures { Puts (symbol_text name.now) (K.output say.old) result (K.output say.new) }
{
    if is_bare(name) {
        return put_all(say, name);
    }
    put_all(say, b"|")?;
    put_all(say, name)?;
    put_all(say, b"|")
}

/// Whether a fault is about a name.
fn is_about_name(fault: &Fault) -> bool
    ensures { result ≡ is_about_name fault.now }
{
    matches!(
        fault,
        Fault::UnknownName
            | Fault::UnknownSort
            | Fault::NameTaken
            | Fault::NotSupported
            | Fault::OtherLogic
            | Fault::UnknownCommand
            | Fault::NotPredicate
            | Fault::NotWellFounded
            | Fault::TooMany
            | Fault::Twice
            | Fault::WrongParams
            | Fault::Missing
    )
}

/// Puts what is wrong, with the name that it is about where there is one.
fn put_reason<K: Sink>(say: &mut K, fault: &TextFault) -> Result<(), Failed>
    ensures { Puts (reason fault.now) (K.output say.old) result (K.output say.new) }
{
    if !is_about_name(&fault.fault) {
        return put_all(say, fault.fault.name());
    }
    put_all(say, fault.fault.name())?;
    put_all(say, b" ")?;
    put_symbol(say, fault.name.bytes())
}

/// Puts a fault with its place.
fn put_fault<K: Sink>(say: &mut K, text: &[u8], fault: &TextFault) -> Result<(), Failed>
    ensures { Puts (fault_line text.now fault.now) (K.output say.old) result (K.output say.new) }
{
    put_counted(say, text, fault.place)?;
    put_all(say, b": ")?;
    put_reason(say, fault)
}

/// Puts what the line of a status says.
fn put_words<K: Sink>(say: &mut K, status: &Status) -> Result<(), Failed>
    ensures { Puts (words_of status.now) (K.output say.old) result (K.output say.new) }
{
    match status {
        Status::Done(outcome) => put_outcome(say, outcome),
        Status::Usage => put_all(
            say,
            b"usage: chc normalise SCRIPT OUT TRACE | chc lift SCRIPT TRACE ANSWER OUT",
        ),
        Status::ScriptRefused(fault) => put_fault(say, b"script refused at ", fault),
        Status::TraceRefused(fault) => put_fault(say, b"trace refused at ", fault),
        Status::Foreign(foreign) => put_foreign(say, foreign),
        Status::AnswerRefused(fault) => put_fault(say, b"answer refused at ", fault),
        Status::ReadFault(word) => put_counted(say, b"cannot read word ", *word as u64),
        Status::WriteFault(word) => put_counted(say, b"cannot write word ", *word as u64),
        Status::TooLong(word) => put_counted(say, b"too long: word ", *word as u64),
        Status::NoMemory => put_all(say, b"no memory"),
    }
}

/// Puts the line of a status. It takes no memory.
pub(crate) fn put_line<K: Sink>(say: &mut K, status: &Status) -> Result<(), Failed>
    ensures { Puts (line status.now) (K.output say.old) result (K.output say.new) }
{
    put_words(say, status)?;
    put_all(say, b"\n")
}
