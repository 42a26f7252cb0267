ghost use Rattle.std.specs.Prelude.{◌≡◌, ◌≢◌, ◌<◌, ◌-◌, ◌^◌, [], ◌∷◌, ◌++◌, ℕ, List, Some, None, OnOk, OnErr};

use crate::entry::{Entry, Place, copy_from, find};
use crate::{Failed, Files};
use items::Items;
use std::alloc::{AllocError, Global};

/// Files in memory, which tell their bytes. Their calls can be made to fail.
#[derive(Debug, Drop)]
pub struct MemoryFiles {
    // The newest file is the first.
    entries: Vec<Entry>,
    open: Option<Place>,
    most_at_once: usize,
    begins: u64,
    takes: u64,
    failing_begins: Items<u64>,
    failing_takes: Items<u64>,
    open_faults: u64,
    read_faults: u64,
    taken: u64,
    alloc: Global,
    ghost some_at_once: { 0 < most_at_once },
}

impl MemoryFiles {
    ghost use Rattle.semgus_io.specs.Memory.{SameCounts, SameFailing, begins, failing_begins, failing_takes, held, left, most_at_once, takes};

    /// Holds no file. A take gives as many bytes as there are and its buffer has room for.
    pub fn new(alloc: Global) -> MemoryFiles
        ensures held { (name : List ℕ) → held result name ≡ Some None }
        ensures calls { (begins result ≡ 0) × (takes result ≡ 0) }
        ensures failing { (failing_begins result ≡ []) × (failing_takes result ≡ []) }
        ensures counts { (result.open_faults ≡ 0) × (result.read_faults ≡ 0) × (result.taken ≡ 0) }
        ensures left { left result ≡ Some [] }
        ensures most { most_at_once result ≡ 2 ^ 64 - 1 }
    {
        MemoryFiles {
            entries: Vec::new(alloc),
            open: None,
            most_at_once: usize::MAX,
            begins: 0,
            takes: 0,
            failing_begins: Items::new(alloc),
            failing_takes: Items::new(alloc),
            open_faults: 0,
            read_faults: 0,
            taken: 0,
            alloc,
        }
    }

    /// Sets the file of a name. A file that was begun is so no more.
    pub fn add(&mut self, name: &str, bytes: &[u8]) -> Result<(), AllocError>
        ensures this { OnOk result (held self.new name.now ≡ Some (Some bytes.now)) }
        ensures others { (other : List ℕ) → other ≢ name.now → held self.new other ≡ held self.old other }
        ensures err { OnErr result ((other : List ℕ) → held self.new other ≡ held self.old other) }
        ensures calls { (begins self.new ≡ begins self.old) × (takes self.new ≡ takes self.old) }
        ensures counts { SameCounts self.old self.new }
        ensures ended { OnOk result (left self.new ≡ Some []) }
        ensures goes_on { OnErr result (left self.new ≡ left self.old) }
        ensures most { most_at_once self.new ≡ most_at_once self.old }
        ensures failing { SameFailing self.old self.new }
    {
        let mut entry = Entry::new(self.alloc);
        entry.name.append(name.as_bytes())?;
        entry.bytes.append(bytes)?;
        self.entries.insert(0, entry)?;
        self.open = None;
        Ok(())
    }

    /// Lets each take give at most n bytes.
    pub fn piece(&mut self, n: usize)
        requires { 0 < n }
        ensures most { most_at_once self.new ≡ n }
        ensures held { (name : List ℕ) → held self.new name ≡ held self.old name }
        ensures calls { (begins self.new ≡ begins self.old) × (takes self.new ≡ takes self.old) }
        ensures counts { SameCounts self.old self.new }
        ensures left { left self.new ≡ left self.old }
        ensures failing { SameFailing self.old self.new }
    {
        self.most_at_once = n;
    }

    /// Lets a call of `begin` fail: the k-th since the files were made, counted from 1.
    pub fn fail_begin(&mut self, k: u64) -> Result<(), AllocError>
        ensures ok { OnOk result (failing_begins self.new ≡ failing_begins self.old ++ k ∷ []) }
        ensures err { OnErr result (failing_begins self.new ≡ failing_begins self.old) }
        ensures held { (name : List ℕ) → held self.new name ≡ held self.old name }
        ensures calls { (begins self.new ≡ begins self.old) × (takes self.new ≡ takes self.old) }
        ensures counts { SameCounts self.old self.new }
        ensures left { left self.new ≡ left self.old }
        ensures others { failing_takes self.new ≡ failing_takes self.old }
        ensures most { most_at_once self.new ≡ most_at_once self.old }
    {
        self.failing_begins.push(k)
    }

    /// Lets a call of `take` fail: the k-th since the files were made, counted from 1.
    pub fn fail_take(&mut self, k: u64) -> Result<(), AllocError>
        ensures ok { OnOk result (failing_takes self.new ≡ failing_takes self.old ++ k ∷ []) }
        ensures err { OnErr result (failing_takes self.new ≡ failing_takes self.old) }
        ensures held { (name : List ℕ) → held self.new name ≡ held self.old name }
        ensures calls { (begins self.new ≡ begins self.old) × (takes self.new ≡ takes self.old) }
        ensures counts { SameCounts self.old self.new }
        ensures left { left self.new ≡ left self.old }
        ensures others { failing_begins self.new ≡ failing_begins self.old }
        ensures most { most_at_once self.new ≡ most_at_once self.old }
    {
        self.failing_takes.push(k)
    }
}

impl Files for MemoryFiles {
    ghost use Rattle.std.specs.Prelude.{false};
    ghost use Rattle.semgus_io.specs.Memory.{held, left};

    ghost held = { held };

    ghost left = { left };

    ghost steady = { λ _. false };

    ghost open_faults = { λ m. m.open_faults };

    ghost read_faults = { λ m. m.read_faults };

    ghost taken = { λ m. m.taken };

    fn begin(&mut self, name: &str) -> Result<(), Failed> {
        self.begins = self.begins.saturating_add(1);
        self.open = None;
        if !self.failing_begins.as_slice().contains(&self.begins) {
            if let Some(entry) = find(self.entries.as_slice(), name.as_bytes()) {
                self.open = Some(Place { entry, at: 0 });
                return Ok(());
            }
        }
        self.open_faults = self.open_faults.saturating_add(1);
        Err(Failed)
    }

    fn take(&mut self, buf: &mut [u8]) -> Result<usize, Failed> {
        self.takes = self.takes.saturating_add(1);
        if self.failing_takes.as_slice().contains(&self.takes) {
            self.read_faults = self.read_faults.saturating_add(1);
            return Err(Failed);
        }
        let Some(place) = self.open else {
            return Ok(0);
        };
        let Some(entry) = self.entries.get(place.entry) else {
            return Ok(0);
        };
        let count = copy_from(entry.bytes.as_slice(), place.at, self.most_at_once, buf);
        self.open = Some(Place {
            entry: place.entry,
            at: place.at + count,
        });
        self.taken = self.taken.saturating_add(count as u64);
        Ok(count)
    }
}
