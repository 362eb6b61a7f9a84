//! The edge to the system: files of a disk and standard output, by the runtime that `main` is given.
//! What the system makes of a call isn't known to any proof.

ghost use Rattle.std.specs.Prelude.{◌≤◌, length, IfOk};

use crate::faults::{Faults, one_more};
use crate::files::{FileErr, Files};
use crate::sink::{Failed, Sink};
use std::alloc::Global;
use std::fs::{File, OpenOptions};
use std::io::{self, Read, Seek, SeekFrom, Write};
use std::rt;

/// The files of a disk. They don't tell what they hold. A failed read or write, and a write that takes
/// no bytes, is counted for its name.
#[derive(Drop)]
pub struct RealFiles<'a, R> {
    rt: &'a R,
    faults: Faults,
}

impl<'a, R: rt::Files> RealFiles<'a, R> {
    ghost use Rattle.std.specs.Prelude.{◌≡◌, ℕ, List};
    ghost use Rattle.chc_source.specs.Faults.{reads_of, writes_of};

    /// The files that `rt` reaches. The counts of names are kept on `alloc`, and all are 0.
    pub fn new(rt: &'a R, alloc: Global) -> RealFiles<'a, R>
        ensures reads { (n : List ℕ) → reads_of result.faults n ≡ 0 }
        ensures writes { (n : List ℕ) → writes_of result.faults n ≡ 0 }
    {
        RealFiles {
            rt,
            faults: Faults::new(alloc),
        }
    }
}

fn read_file<R: rt::Files>(rt: &R, name: &str, from: u64, into: &mut [u8]) -> io::Result<usize>
    ensures { IfOk result (λ n. n ≤ length into.old) }
{
    let mut file = File::open(rt, name)?;
    file.seek(SeekFrom::Start(from))?;
    file.read(into)
}

fn add_to_file<R: rt::Files>(rt: &R, name: &str, bytes: &[u8]) -> io::Result<usize>
    ensures { IfOk result (λ n. n ≤ length bytes.now) }
{
    let mut file = OpenOptions::new().append(true).create(true).open(rt, name)?;
    file.write(bytes)
}

impl<'a, R: rt::Files> Files for RealFiles<'a, R> {
    ghost use Rattle.std.specs.Prelude.{false, None};
    ghost use Rattle.chc_source.specs.Faults.{reads_of, writes_of};

    ghost outside = { λ f. record { tells = false; held = λ _. None; read_faults = reads_of f.faults; write_faults = writes_of f.faults } };

    fn read_at(&mut self, name: &str, from: u64, into: &mut [u8]) -> Result<usize, FileErr> {
        self.faults.enter(name)?;
        match read_file(self.rt, name, from, into) {
            Ok(count) => Ok(count),
            Err(_) => {
                self.faults.read_failed(name);
                Err(FileErr::Failed)
            }
        }
    }

    fn start(&mut self, name: &str) -> Result<(), FileErr> {
        self.faults.enter(name)?;
        match File::create(self.rt, name) {
            Ok(_) => Ok(()),
            Err(_) => {
                self.faults.write_failed(name);
                Err(FileErr::Failed)
            }
        }
    }

    fn append(&mut self, name: &str, bytes: &[u8]) -> Result<usize, FileErr> {
        self.faults.enter(name)?;
        match add_to_file(self.rt, name, bytes) {
            Ok(count) if count > 0 => Ok(count),
            _ => {
                self.faults.write_failed(name);
                Err(FileErr::Failed)
            }
        }
    }
}

/// Standard output. It doesn't tell what it took. A failed write, and one that takes no bytes, is
/// counted.
#[derive(Drop)]
pub struct StdSink<'a, R> {
    rt: &'a R,
    faults: u64,
}

impl<'a, R: Print> StdSink<'a, R> {
    ghost use Rattle.std.specs.Prelude.{◌≡◌};

    /// The standard output of `rt`, with the count 0.
    pub fn new(rt: &'a R) -> StdSink<'a, R>
        ensures { result.faults ≡ 0 }
    {
        StdSink { rt, faults: 0 }
    }
}

fn print<R: Print>(rt: &R, bytes: &[u8]) -> io::Result<usize>
    ensures { IfOk result (λ n. n ≤ length bytes.now) }
{
    io::writer(rt).write(bytes)
}

impl<'a, R: Print> Sink for StdSink<'a, R> {
    ghost use Rattle.std.specs.Prelude.{false, []};

    ghost output = { λ s. record { tells = false; taken = []; faults = s.faults } };

    fn put(&mut self, bytes: &[u8]) -> Result<usize, Failed> {
        match print(self.rt, bytes) {
            Ok(count) if count > 0 => Ok(count),
            _ => {
                self.faults = one_more(self.faults);
                Err(Failed)
            }
        }
    }
}
