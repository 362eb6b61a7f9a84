//! What a run comes to.

ghost use Rattle.std.specs.Prelude.{◌≡◌};
ghost use Rattle.chc_jobs.specs.Lines.{code_of};

use crate::lift::Foreign;
use chc_sexpr::TextFault;

/// What was done, with the numbers that its line tells.
#[derive(Debug, Drop)]
pub enum Outcome {
    /// A script was normalised: how many clauses it had, how many the printed one has, and in how many steps.
    Normalised { before: u32, after: u32, steps: u64 },
    /// A model answer was carried back: how many definitions it came to.
    Lifted { definitions: u64 },
}

/// What a run comes to.
#[derive(Debug, Drop)]
pub enum Status {
    /// All is read, computed and written.
    Done(Outcome),
    /// The words are no form of either command.
    Usage,
    /// The script's bytes are no script: their first fault.
    ScriptRefused(TextFault),
    /// The trace's bytes say no trace: their first fault.
    TraceRefused(TextFault),
    /// The trace isn't the script's.
    Foreign(Foreign),
    /// The answer's bytes say no answer for the printed script: their first fault.
    AnswerRefused(TextFault),
    /// The file of the input word of that number couldn't be read; the command's word has the number 0.
    ReadFault(u32),
    /// The file of the output word of that number couldn't be written.
    WriteFault(u32),
    /// The file of the input word of that number has more than 16,777,216 bytes.
    TooLong(u32),
    /// Memory was refused.
    NoMemory,
}

impl Status {
    /// The exit status of the program.
    pub fn code(&self) -> u8
        ensures { result ≡ code_of self.now }
    {
        match self {
            Status::Done(_) => 0,
            Status::Usage => 1,
            Status::ScriptRefused(_) => 2,
            Status::TraceRefused(_) => 3,
            Status::Foreign(_) => 4,
            Status::AnswerRefused(_) => 5,
            Status::ReadFault(_) => 8,
            Status::WriteFault(_) => 9,
            Status::TooLong(_) => 10,
            Status::NoMemory => 11,
        }
    }
}
