ghost use Rattle.std.specs.Prelude.{◌≡◌, ℕ, ◌<◌, ◌≤◌, List, Option, length, take, IfOk, OnOk, OnErr};
ghost use Rattle.semgus_io.specs.Counts.{Rises};
ghost use Rattle.semgus_io.specs.Writes.{Grows, GrowsByPart};

use crate::Failed;

/// What takes the bytes of the output.
pub trait Sink {
    // The bytes taken so far, where they are told.
    ghost written: { Self → Option (List ℕ) };

    ghost faults: { Self → ℕ };

    /// Takes the first bytes of a piece, and answers how many: at least one.
    fn put(&mut self, bytes: &[u8]) -> Result<usize, Failed>
        requires { 0 < length bytes.now }
        ensures some { IfOk result (λ n. 0 < n) }
        ensures within { IfOk result (λ n. n ≤ length bytes.now) }
        ensures grows { IfOk result (λ n. Grows (written self.old) (written self.new) (take n bytes.now)) }
        ensures stays { OnErr result (written self.new ≡ written self.old) }

        ensures risen { OnErr result (Rises (faults self.old) (faults self.new)) }
        ensures counted { OnOk result (faults self.new ≡ faults self.old) }
        ensures kept { faults self.old ≤ faults self.new };
}

/// Puts all of the bytes, or a first part of them where a put fails.
pub fn put_all<S: Sink>(sink: &mut S, bytes: &[u8]) -> Result<(), Failed>
    ensures all { OnOk result (Grows (S.written sink.old) (S.written sink.new) bytes.now) }
    ensures part { OnErr result (GrowsByPart (S.written sink.old) (S.written sink.new) bytes.now) }

    ensures risen { OnErr result (Rises (S.faults sink.old) (S.faults sink.new)) }
    ensures counted { OnOk result (S.faults sink.new ≡ S.faults sink.old) }
    ensures kept { S.faults sink.old ≤ S.faults sink.new }
{
    let mut done = 0;
    while done < bytes.len() {
        done += sink.put(&bytes[done..])?;
    }
    Ok(())
}
