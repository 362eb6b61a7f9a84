//! Files in memory: the bytes that are held under each name.

ghost use Rattle.std.specs.Prelude.{◌≡◌, ℕ, ◌<◌, ◌≤◌, List, length, take, None, unwrap_or, option_copied, IsSome, IfOk, OnOk, OnErr, MatchOption, [], ◌++◌};
ghost use Rattle.chc_source.specs.Outside.{Gave};
ghost use Rattle.chc_source.specs.Store.{held_in, HoldsNow, SameFiles};

use crate::text::ByteText;
use chc_sorts::NoMemory;
use std::alloc::Global;
use std::collections::BTreeMap;

/// Texts by name.
#[derive(Debug, Drop)]
pub(crate) struct Store {
    alloc: Global,
    files: BTreeMap<String, ByteText>,
}

/// Copies what stands from the byte at `from` on into `into`, as much as fits, and says how much.
fn copy_from(file: &[u8], from: u64, into: &mut [u8]) -> usize
    requires { 0 < length into.old }
    ensures count { result ≤ length into.old }
    ensures given { Gave file.now from result into.new }
{
    let start = file.len().min(from as usize);
    let rest = &file[start..];
    let count = rest.len().min(into.len());
    into[..count].copy_from_slice(&rest[..count]);
    count
}

impl Store {
    /// No files. Texts and names will be kept on `alloc`.
    pub(crate) fn new(alloc: Global) -> Store
        ensures { (n : List ℕ) → held_in result n ≡ None }
    {
        Store {
            alloc,
            files: BTreeMap::new(alloc),
        }
    }

    /// The bytes under `name`, if it is held.
    pub(crate) fn held(&self, name: &str) -> Option<&[u8]>
        ensures { option_copied result ≡ held_in self.now name.now }
    {
        match self.files.get(name) {
            Some(text) => Some(text.bytes()),
            None => None,
        }
    }

    /// Holds `bytes` under `name` in place of what was there.
    pub(crate) fn hold(&mut self, name: &str, bytes: &[u8]) -> Result<(), NoMemory>
        ensures held { OnOk result (HoldsNow name.now bytes.now self.old self.new) }
        ensures same { OnErr result (SameFiles self.old self.new) }
    {
        let mut text = ByteText::new(self.alloc);
        text.extend(bytes)?;
        let key = String::from_str(self.alloc, name)?;
        self.files.insert(key, text)?;
        Ok(())
    }

    /// Copies a part of the file `name`; `None` where it isn't held.
    pub(crate) fn read(&self, name: &str, from: u64, into: &mut [u8]) -> Option<usize>
        requires { 0 < length into.old }
        ensures { MatchOption result (held_in self.now name.now ≡ None)
            (λ n. IsSome (held_in self.now name.now) × (n ≤ length into.old) × Gave (unwrap_or (held_in self.now name.now) []) from n into.new) }
    {
        match self.files.get(name) {
            Some(text) => Some(copy_from(text.bytes(), from, into)),
            None => None,
        }
    }

    /// Adds `bytes` at the end of the file `name`, which is empty where it isn't held.
    pub(crate) fn add(&mut self, name: &str, bytes: &[u8]) -> Result<(), NoMemory>
        ensures added { OnOk result (HoldsNow name.now (unwrap_or (held_in self.old name.now) [] ++ bytes.now) self.old self.new) }
        ensures same { OnErr result (SameFiles self.old self.new) }
    {
        match self.files.get_mut(name) {
            Some(text) => text.extend(bytes),
            None => self.hold(name, bytes),
        }
    }
}
