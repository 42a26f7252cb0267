ghost use Rattle.std.specs.Prelude.{◌≡◌, ◌<◌, ◌≤◌, ◌+◌, ◌-◌, ◌^◌, [], IfOk, OnOk, OnErr, ◌∷◌, ◌++◌, length, take, drop, vec_len};

use crate::{Failed, Sink};
use items::Items;
use std::alloc::{AllocError, Global};

/// A sink in memory with room for so many bytes, which tells what it took. Its calls can be made to fail.
#[derive(Debug, Drop)]
pub struct MemorySink {
    room: Vec<u8>,
    len: usize,
    most_at_once: usize,
    puts: u64,
    failing_puts: Items<u64>,
    faults: u64,
    ghost within: { len ≤ vec_len room },
    ghost some_at_once: { 0 < most_at_once },
}

impl MemorySink {
    ghost use Rattle.semgus_io.specs.MemorySinks.{failing_puts, most_at_once, puts, room_of, taken_bytes};

    pub fn new(alloc: Global, room: usize) -> Result<MemorySink, AllocError>
        ensures empty { IfOk result (λ sink. (taken_bytes sink ≡ []) × (puts sink ≡ 0) × (room_of sink ≡ room)) }
        ensures counts { IfOk result (λ sink. (sink.faults ≡ 0) × (failing_puts sink ≡ [])) }
        ensures most { IfOk result (λ sink. most_at_once sink ≡ 2 ^ 64 - 1) }
    {
        Ok(MemorySink {
            room: vec![in alloc; 0; room]?,
            len: 0,
            most_at_once: usize::MAX,
            puts: 0,
            failing_puts: Items::new(alloc),
            faults: 0,
        })
    }

    /// Lets each put take at most n bytes.
    pub fn piece(&mut self, n: usize)
        requires { 0 < n }
        ensures most { most_at_once self.new ≡ n }
        ensures taken { taken_bytes self.new ≡ taken_bytes self.old }
        ensures same { (puts self.new ≡ puts self.old) × (room_of self.new ≡ room_of self.old) }
        ensures counts { self.new.faults ≡ self.old.faults }
        ensures failing { failing_puts self.new ≡ failing_puts self.old }
    {
        self.most_at_once = n;
    }

    /// Lets a call of `put` fail: the k-th since the sink was made, counted from 1.
    pub fn fail_put(&mut self, k: u64) -> Result<(), AllocError>
        ensures ok { OnOk result (failing_puts self.new ≡ failing_puts self.old ++ k ∷ []) }
        ensures err { OnErr result (failing_puts self.new ≡ failing_puts self.old) }
        ensures taken { taken_bytes self.new ≡ taken_bytes self.old }
        ensures same { (puts self.new ≡ puts self.old) × (room_of self.new ≡ room_of self.old) }
        ensures counts { self.new.faults ≡ self.old.faults }
        ensures most { most_at_once self.new ≡ most_at_once self.old }
    {
        self.failing_puts.push(k)
    }

    /// The bytes that were taken so far.
    pub fn written(&self) -> &[u8]
        ensures { result.now ≡ taken_bytes self.now }
    {
        &self.room.as_slice()[..self.len]
    }
}

impl Sink for MemorySink {
    ghost use Rattle.semgus_io.specs.MemorySinks.{taken_bytes};
    ghost use Rattle.std.specs.Prelude.{Some};

    ghost written = { λ s. Some (taken_bytes s) };

    ghost faults = { λ s. s.faults };

    /// A put for which no room is left fails.
    fn put(&mut self, bytes: &[u8]) -> Result<usize, Failed> {
        self.puts = self.puts.saturating_add(1);
        let left = self.room.len() - self.len;
        if left == 0 || self.failing_puts.as_slice().contains(&self.puts) {
            self.faults = self.faults.saturating_add(1);
            return Err(Failed);
        }
        let count = bytes.len().min(left).min(self.most_at_once);
        write_at(&mut self.room, self.len, &bytes[..count]);
        self.len += count;
        Ok(count)
    }
}

/// Writes bytes over those at a place.
fn write_at(room: &mut Vec<u8>, at: usize, bytes: &[u8])
    requires { at + length bytes.now ≤ vec_len room.old }
    ensures { room.new.items ≡ take at room.old.items ++ bytes.now ++ drop (at + length bytes.now) room.old.items }
{
    let end = at + bytes.len();
    room.as_mut_slice()[at..end].copy_from_slice(bytes);
}
