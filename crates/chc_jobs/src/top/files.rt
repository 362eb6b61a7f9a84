//! The files of a command: reading its inputs, writing its outputs.

ghost use Rattle.std.specs.Prelude.{◌≡◌, ◌≤◌, length, IfOk, Some, IfErr, OnOk, OnErr};
ghost use Rattle.chc_source.specs.Outside.{bytes_at, OnlyReads, OnlyWrites, IsCutShort};
ghost use Rattle.chc_jobs.specs.Runs.{most_bytes, Told};
ghost use Rattle.chc_jobs.specs.Refusals.{WordReadRefusal, WordWriteRefusal};

use super::status::Status;
use chc_source::{ByteText, Files, ReadErr, WriteErr, read_whole, write_whole};
use std::alloc::Global;

/// How many bytes a file that is read may have.
const MOST_BYTES: u64 = 16_777_216;

/// The whole file of the input word of that number, or the status that the run comes to.
pub(crate) fn read_word<F: Files>(
    alloc: Global,
    files: &mut F,
    name: &str,
    word: u32,
) -> Result<ByteText, Status>
    ensures text { IfOk result (λ text. Told (F.outside files.old) (text ≡ bytes_at (F.outside files.old) name.now)) }
    ensures within { IfOk result (λ text. length text ≤ most_bytes) }
    ensures refused { IfErr result (WordReadRefusal name.now word (F.outside files.old) (F.outside files.new)) }
    ensures only { OnlyReads name.now (F.outside files.old) (F.outside files.new) }
{
    match read_whole(alloc, files, name, MOST_BYTES) {
        Ok(text) => Ok(text),
        Err(ReadErr::Fault) => Err(Status::ReadFault(word)),
        Err(ReadErr::TooLong) => Err(Status::TooLong(word)),
        Err(ReadErr::NoMemory) => Err(Status::NoMemory),
    }
}

/// Writes the whole file of the output word of that number, or gives the status that the run comes to.
pub(crate) fn write_word<F: Files>(
    alloc: Global,
    files: &mut F,
    name: &str,
    word: u32,
    bytes: &[u8],
) -> Result<(), Status>
    ensures whole { OnOk result (Told (F.outside files.old) ((F.outside files.new).held name.now ≡ Some bytes.now)) }
    ensures refused { IfErr result (WordWriteRefusal name.now word (F.outside files.old) (F.outside files.new)) }
    ensures cut { OnErr result (Told (F.outside files.old) (IsCutShort name.now bytes.now (F.outside files.old) (F.outside files.new))) }
    ensures only { OnlyWrites name.now (F.outside files.old) (F.outside files.new) }
{
    match write_whole(alloc, files, name, bytes) {
        Ok(()) => Ok(()),
        Err(WriteErr::Fault) => Err(Status::WriteFault(word)),
        Err(WriteErr::NoMemory) => Err(Status::NoMemory),
    }
}
