//! Why a benchmark gives no number.

use chc_sexpr::{TextErr, TextFault};
use chc_sorts::NoMemory;
use std::alloc::AllocError;
use std::{fmt, io};

/// Why a benchmark gives no number.
#[derive(Debug, Drop)]
pub enum Failure {
    /// The words ask for none, or for a larger one than there is.
    NoBenchmark,
    /// The text is too long for the reader.
    TooLong,
    /// The script has a fault.
    Refused(TextFault),
    /// The processor time couldn't be asked for.
    NoClock,
    /// Memory was refused.
    NoMemory,
}

impl fmt::Display for Failure {
    fn fmt<W: fmt::Write>(&self, f: &mut fmt::Formatter<W>) -> fmt::Result {
        match self {
            Failure::NoBenchmark => {
                write!(
                    f,
                    "usage: bench_scripts read N, or print, steps, unreached or unneeded in place of read"
                )
            }
            Failure::TooLong => write!(f, "too long"),
            Failure::Refused(fault) => {
                let place = fault.place;
                write!(f, "refused at {place}: {:?}", fault.fault)
            }
            Failure::NoClock => write!(f, "no clock"),
            Failure::NoMemory => write!(f, "no memory"),
        }
    }
}

impl From<AllocError> for Failure {
    fn from(_refused: AllocError) -> Failure {
        Failure::NoMemory
    }
}

impl From<io::Error> for Failure {
    fn from(_error: io::Error) -> Failure {
        Failure::NoClock
    }
}

impl From<NoMemory> for Failure {
    fn from(_refused: NoMemory) -> Failure {
        Failure::NoMemory
    }
}

impl From<TextErr> for Failure {
    fn from(error: TextErr) -> Failure {
        match error {
            TextErr::At(fault) => Failure::Refused(fault),
            TextErr::NoMemory => Failure::NoMemory,
        }
    }
}
