//! Whole files: the loops over single reads and writes.

ghost use Rattle.std.specs.Prelude.{◌≡◌, ◌+◌, ◌^◌, ◌<◌, ◌≤◌, length, IsTrue, IfOk, IfErr, OnOk, OnErr};
ghost use Rattle.chc_source.specs.Outside.{bytes_at, Rose, OnlyReads, OnlyWrites, IsCutShort, IsFront};
ghost use Rattle.chc_source.specs.Causes.{ReadCause, WriteCause};

use crate::files::{FileErr, Files};
use crate::room::zeros;
use crate::text::ByteText;
use chc_sorts::NoMemory;
use std::alloc::Global;
use thiserror::Error;

/// How many bytes a file is asked for at a time.
const PIECE: usize = 65_536;

/// Why a file wasn't read whole.
#[derive(Clone, Copy, Debug, PartialEq, Eq, Error)]
pub enum ReadErr {
    /// The outside failed: the count of failed reads of this name rose in this call.
    #[error("the file could not be read")]
    Fault,
    /// The file has more bytes than the caller allows.
    #[error("the file is too long")]
    TooLong,
    /// Memory was refused.
    #[error("out of memory")]
    NoMemory,
}

/// Why a file wasn't written whole.
#[derive(Clone, Copy, Debug, PartialEq, Eq, Error)]
pub enum WriteErr {
    /// The outside failed: the count of failed writes of this name rose in this call.
    #[error("the file could not be written")]
    Fault,
    /// Memory was refused.
    #[error("out of memory")]
    NoMemory,
}

impl From<FileErr> for ReadErr {
    ghost use Rattle.std.specs.Prelude.{◌≡◌};
    ghost use Rattle.chc_source.specs.Causes.{read_err};

    ghost from_gives = { λ e r. r ≡ read_err e };

    fn from(error: FileErr) -> ReadErr {
        match error {
            FileErr::Failed => ReadErr::Fault,
            FileErr::NoMemory => ReadErr::NoMemory,
        }
    }
}

impl From<NoMemory> for ReadErr {
    ghost use Rattle.std.specs.Prelude.{◌≡◌};
    ghost use Rattle.chc_source.specs.declared.whole.ReadErr.{ReadErr};

    ghost from_gives = { λ _ r. r ≡ ReadErr.NoMemory };

    fn from(_refused: NoMemory) -> ReadErr {
        ReadErr::NoMemory
    }
}

impl From<FileErr> for WriteErr {
    ghost use Rattle.std.specs.Prelude.{◌≡◌};
    ghost use Rattle.chc_source.specs.Causes.{write_err};

    ghost from_gives = { λ e r. r ≡ write_err e };

    fn from(error: FileErr) -> WriteErr {
        match error {
            FileErr::Failed => WriteErr::Fault,
            FileErr::NoMemory => WriteErr::NoMemory,
        }
    }
}

/// Reads one piece of the file `name` from the end of `text` on, adds it to `text`, and says how many
/// bytes came. `into` is the room for a piece.
fn read_piece<F: Files>(
    files: &mut F,
    name: &str,
    into: &mut [u8],
    text: &mut ByteText,
) -> Result<usize, ReadErr>
    requires room { 0 < length into.old }
    requires place { length text.old ≤ 2 ^ 32 }
    ensures longer { IfOk result (λ n. length text.new ≡ length text.old + n) }
    ensures front { IfOk result (λ n. IsTrue (F.outside files.old).tells → IsFront text.old (bytes_at (F.outside files.old) name.now) → IsFront text.new (bytes_at (F.outside files.old) name.now)) }
    ensures ending { IfOk result (λ n. n ≡ 0 → IsTrue (F.outside files.old).tells → IsFront text.old (bytes_at (F.outside files.old) name.now) → text.new ≡ bytes_at (F.outside files.old) name.now) }
    ensures only { OnlyReads name.now (F.outside files.old) (F.outside files.new) }
    ensures cause { IfErr result (λ e. ReadCause e (Rose ((F.outside files.old).read_faults name.now) ((F.outside files.new).read_faults name.now)) ⊥) }
{
    let count = files.read_at(name, text.len() as u64, into)?;
    text.extend(&into[..count])?;
    Ok(count)
}

/// Reads the whole file `name`, which has at most `limit` bytes; `limit` is at most 2^32. The file is
/// asked for pieces until none come, or more than `limit` bytes did. No file changes.
///
/// Errors: `Fault` where a read failed and was counted, `TooLong` where the file has more than `limit`
/// bytes, `NoMemory`.
pub fn read_whole<F: Files>(
    alloc: Global,
    files: &mut F,
    name: &str,
    limit: u64,
) -> Result<ByteText, ReadErr>
    requires { limit ≤ 2 ^ 32 }
    ensures whole { IfOk result (λ text. IsTrue (F.outside files.old).tells → text ≡ bytes_at (F.outside files.old) name.now) }
    ensures within { IfOk result (λ text. length text ≤ limit) }
    ensures cause { IfErr result (λ e. ReadCause e
        (Rose ((F.outside files.old).read_faults name.now) ((F.outside files.new).read_faults name.now))
        (IsTrue (F.outside files.old).tells → limit < length (bytes_at (F.outside files.old) name.now))) }
    ensures only { OnlyReads name.now (F.outside files.old) (F.outside files.new) }
{
    let mut text = ByteText::new(alloc);
    let mut piece = zeros(alloc, PIECE)?;
    let into = piece.as_mut_slice();
    loop {
        let count = read_piece(files, name, into, &mut text)?;
        if count == 0 {
            return Ok(text);
        }
        if text.len() as u64 > limit {
            return Err(ReadErr::TooLong);
        }
    }
}

/// Writes the whole file `name`: makes it empty and adds all of `bytes`. No other file changes. After a
/// refusal the file is as before, where it couldn't be made empty, or holds the first of the bytes.
/// The allocator is that of every call that may want memory; here only `files` itself takes any.
///
/// Errors: `Fault` where a write failed and was counted, `NoMemory`.
pub fn write_whole<F: Files>(
    _alloc: Global,
    files: &mut F,
    name: &str,
    bytes: &[u8],
) -> Result<(), WriteErr>
    ensures whole { OnOk result (IsTrue (F.outside files.old).tells → (F.outside files.new).held name.now ≡ Some bytes.now) }
    ensures refused { OnErr result (IsTrue (F.outside files.old).tells → IsCutShort name.now bytes.now (F.outside files.old) (F.outside files.new)) }
    ensures cause { IfErr result (λ e. WriteCause e (Rose ((F.outside files.old).write_faults name.now) ((F.outside files.new).write_faults name.now))) }
    ensures only { OnlyWrites name.now (F.outside files.old) (F.outside files.new) }
{
    files.start(name)?;
    let mut done = 0;
    while done < bytes.len() {
        done += files.append(name, &bytes[done..])?;
    }
    Ok(())
}
