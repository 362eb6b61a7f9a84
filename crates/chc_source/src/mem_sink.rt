//! An output in memory.

ghost use Rattle.std.specs.Prelude.{◌≤◌, vec_len};

use crate::faults::one_more;
use crate::room::zeros;
use crate::schedule::Schedule;
use crate::sink::{Failed, Sink};
use chc_sorts::NoMemory;
use std::alloc::Global;

/// An output in memory with room for so many bytes. It tells what it took. A put into a full sink
/// fails and is counted, and so does one that `fail_at` names.
#[derive(Debug, Drop)]
pub struct MemSink {
    room: Vec<u8>,
    len: usize,
    faults: u64,
    schedule: Schedule,
    ghost within: { len ≤ vec_len room },
}

impl MemSink {
    ghost use Rattle.std.specs.Prelude.{◌≡◌, ℕ, [], true, false, IfOk, OnOk, OnErr};
    ghost use Rattle.chc_source.specs.MemorySink.{sink_output, room_of, puts_made, fails_put, SamePuts, FailsPutToo};

    /// An empty sink. It takes the memory for `room` bytes now; a put takes none.
    pub fn new(alloc: Global, room: usize) -> Result<MemSink, NoMemory>
        ensures output { IfOk result (λ s. sink_output s ≡ record { tells = true; taken = []; faults = 0 }) }
        ensures room { IfOk result (λ s. room_of s ≡ room) }
        ensures puts { IfOk result (λ s. puts_made s ≡ 0) }
        ensures failing { IfOk result (λ s. (k : ℕ) → fails_put s k ≡ false) }
    {
        Ok(MemSink {
            room: zeros(alloc, room)?,
            len: 0,
            faults: 0,
            schedule: Schedule::new(alloc),
        })
    }

    /// Makes the put of this number fail, counted from 0. Where memory is refused nothing changes.
    pub fn fail_at(&mut self, call: u64) -> Result<(), NoMemory>
        ensures failing { OnOk result (FailsPutToo call self.old self.new) }
        ensures same { OnErr result (SamePuts self.old self.new) }
        ensures output { sink_output self.new ≡ sink_output self.old }
        ensures room { room_of self.new ≡ room_of self.old }
        ensures puts { puts_made self.new ≡ puts_made self.old }
    {
        self.schedule.fail_at(call)
    }

    /// The bytes that were taken, in order.
    pub fn taken(&self) -> &[u8]
        ensures { result.now ≡ (sink_output self.now).taken }
    {
        &self.room[..self.len]
    }
}

impl Sink for MemSink {
    ghost use Rattle.std.specs.Prelude.{◌≡◌, ◌⊎◌, ◌+◌, ◌-◌, ◌^◌, ◌<◌, ◌≤◌, ◌++◌, min, length, take, IsTrue, IsErr, IfOk, OnErr};
    ghost use Rattle.chc_source.specs.Outside.{Rose};
    ghost use Rattle.chc_source.specs.Output.{GoesOn};
    ghost use Rattle.chc_source.specs.MemorySink.{sink_output, room_of, puts_made, fails_put, SamePuts};

    ghost output = { sink_output };

    fn put(&mut self, bytes: &[u8]) -> Result<usize, Failed>
        requires { 0 < length bytes.now }
        ensures count { IfOk result (λ n. (0 < n) × (n ≤ length bytes.now)) }
        ensures added { IfOk result (λ n. (sink_output self.new).taken ≡ (sink_output self.old).taken ++ take n bytes.now) }
        ensures refused { OnErr result ((sink_output self.new).taken ≡ (sink_output self.old).taken) }
        ensures only { GoesOn (sink_output self.old) (sink_output self.new) }
        ensures cause { OnErr result (Rose (sink_output self.old).faults (sink_output self.new).faults) }
        ensures failing { IsTrue (fails_put self.old (puts_made self.old)) → IsErr result }
        ensures reason { OnErr result (IsTrue (fails_put self.old (puts_made self.old)) ⊎ (length (sink_output self.old).taken ≡ room_of self.old)) }
        ensures puts { puts_made self.new ≡ min (puts_made self.old + 1) (2 ^ 64 - 1) }
        ensures manner { SamePuts self.old self.new }
    {
        let fails = self.schedule.take();
        let count = bytes.len().min(self.room.len() - self.len);
        if fails || count == 0 {
            self.faults = one_more(self.faults);
            return Err(Failed);
        }
        self.room[self.len..self.len + count].copy_from_slice(&bytes[..count]);
        self.len += count;
        Ok(count)
    }
}
