//! How often reading and writing failed, for each name.

ghost use Rattle.std.specs.Prelude.{◌≡◌, ℕ, List, IsTrue, OnOk};
ghost use Rattle.chc_source.specs.Outside.{Rose, Grows};
ghost use Rattle.chc_source.specs.Faults.{reads_of, writes_of, has_entry, SameCounts, OneMoreRead, OneMoreWrite};

use chc_sorts::NoMemory;
use std::alloc::Global;
use std::collections::BTreeMap;

/// The two counts of one name.
#[derive(Clone, Copy, Debug, Drop)]
pub(crate) struct Counts {
    reads: u64,
    writes: u64,
}

/// The counts of all names that a call was made for. A name without an entry counts as 0 and 0.
#[derive(Debug, Drop)]
pub(crate) struct Faults {
    alloc: Global,
    counts: BTreeMap<String, Counts>,
}

/// One more than a count of faults, which stands still at the end of its type.
pub(crate) fn one_more(count: u64) -> u64
    ensures rose { Rose count result }
    ensures grows { Grows count result }
{
    count.saturating_add(1)
}

impl Faults {
    /// No entries.
    pub(crate) fn new(alloc: Global) -> Faults
        ensures reads { (n : List ℕ) → reads_of result n ≡ 0 }
        ensures writes { (n : List ℕ) → writes_of result n ≡ 0 }
    {
        Faults {
            alloc,
            counts: BTreeMap::new(alloc),
        }
    }

    /// Makes the entry of `name`, if there is none.
    pub(crate) fn enter(&mut self, name: &str) -> Result<(), NoMemory>
        ensures entry { OnOk result (IsTrue (has_entry self.new name.now)) }
        ensures same { SameCounts self.old self.new }
    {
        if self.counts.contains_key(name) {
            return Ok(());
        }
        let key = String::from_str(self.alloc, name)?;
        self.counts.insert(
            key,
            Counts {
                reads: 0,
                writes: 0,
            },
        )?;
        Ok(())
    }

    /// Counts a failed read of `name`.
    pub(crate) fn read_failed(&mut self, name: &str)
        requires { IsTrue (has_entry self.old name.now) }
        ensures { OneMoreRead name.now self.old self.new }
    {
        if let Some(counts) = self.counts.get_mut(name) {
            counts.reads = one_more(counts.reads);
        }
    }

    /// Counts a failed write of `name`.
    pub(crate) fn write_failed(&mut self, name: &str)
        requires { IsTrue (has_entry self.old name.now) }
        ensures { OneMoreWrite name.now self.old self.new }
    {
        if let Some(counts) = self.counts.get_mut(name) {
            counts.writes = one_more(counts.writes);
        }
    }
}
