//! The outside: files and a sink as traits that count their faults, and the loops that read and write whole files.
#![tactic(auto)]

mod faults;
mod files;
mod mem_files;
mod mem_sink;
mod quiet_files;
mod real;
mod room;
mod schedule;
mod sink;
mod store;
#[cfg(test)]
mod tests;
mod text;
mod whole;

pub use chc_sorts::NoMemory;
pub use files::{FileErr, Files};
pub use mem_files::MemFiles;
pub use mem_sink::MemSink;
pub use quiet_files::QuietFiles;
pub use real::{RealFiles, StdSink};
pub use sink::{Failed, Sink};
pub use text::ByteText;
pub use whole::{ReadErr, WriteErr, read_whole, write_whole};
