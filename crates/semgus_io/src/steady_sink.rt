ghost use Rattle.std.specs.Prelude.{◌≡◌, ◌+◌, ◌<◌, ◌≤◌, [], ◌++◌, length, take, drop, IfOk, OnOk, OnErr};
ghost use Rattle.semgus_io.specs.Counts.{Rises};
ghost use Rattle.semgus_io.specs.Writes.{Grows};

use crate::{Failed, Sink};

/// A sink that takes bytes into a lent slice, and tells them. A put fails only where the slice is full.
#[derive(Drop)]
pub struct SteadySink<'a> {
    room: &'a mut [u8],
    len: usize,
    faults: u64,
    ghost within: { len ≤ length room.now },
}

impl<'a> SteadySink<'a> {
    ghost use Rattle.semgus_io.specs.SteadySinks.{written_of};

    /// Has written nothing.
    pub fn new(room: &'a mut [u8]) -> SteadySink<'a>
        ensures written { written_of result ≡ [] }
        ensures room { result.room.now ≡ room.entry.now }
        ensures counts { result.faults ≡ 0 }
    {
        SteadySink {
            room,
            len: 0,
            faults: 0,
        }
    }
}

impl Sink for SteadySink<'_> {
    ghost use Rattle.std.specs.Prelude.{Some};
    ghost use Rattle.semgus_io.specs.SteadySinks.{written_of};

    ghost written = { λ s. Some (written_of s) };

    ghost faults = { λ s. s.faults };

    /// Takes as many of the bytes as there is room for. It fails only where the slice is full.
    fn put(&mut self, bytes: &[u8]) -> Result<usize, Failed>
        requires { 0 < length bytes.now }
        ensures some { IfOk result (λ n. 0 < n) }
        ensures within { IfOk result (λ n. n ≤ length bytes.now) }
        ensures grows { IfOk result (λ n. Grows (Some (written_of self.old)) (Some (written_of self.new)) (take n bytes.now)) }
        ensures stays { OnErr result (Some (written_of self.new) ≡ Some (written_of self.old)) }

        ensures risen { OnErr result (Rises self.old.faults self.new.faults) }
        ensures counted { OnOk result (self.new.faults ≡ self.old.faults) }
        ensures kept { self.old.faults ≤ self.new.faults }

        ensures full { OnErr result (length (written_of self.old) ≡ length self.old.room.now) }
    {
        let left = self.room.len() - self.len;
        if left == 0 {
            self.faults = self.faults.saturating_add(1);
            return Err(Failed);
        }
        let count = bytes.len().min(left);
        write_at(self.room, self.len, &bytes[..count]);
        self.len += count;
        Ok(count)
    }
}

/// Writes bytes over those at a place.
fn write_at(room: &mut [u8], at: usize, bytes: &[u8])
    requires { at + length bytes.now ≤ length room.old }
    ensures { room.new ≡ take at room.old ++ bytes.now ++ drop (at + length bytes.now) room.old }
{
    let end = at + bytes.len();
    room[at..end].copy_from_slice(bytes);
}
