ghost use Rattle.std.specs.Prelude.{◌≡◌, ◌≢◌, ◌<◌, ◌-◌, ◌^◌, [], ℕ, List, Some, None, OnOk, OnErr};

use crate::entry::{Entry, Place, copy_from, find};
use crate::{Failed, Files};
use std::alloc::{AllocError, Global};

/// Files in memory, which tell their bytes. A name that isn't held can't be begun, and nothing else fails.
#[derive(Debug, Drop)]
pub struct SteadyFiles {
    // The newest file is the first.
    entries: Vec<Entry>,
    open: Option<Place>,
    most_at_once: usize,
    open_faults: u64,
    taken: u64,
    alloc: Global,
    ghost some_at_once: { 0 < most_at_once },
}

impl SteadyFiles {
    ghost use Rattle.semgus_io.specs.Steady.{SameCounts, held, left, most_at_once};

    /// Holds no file. A take gives as many bytes as there are and its buffer has room for.
    pub fn new(alloc: Global) -> SteadyFiles
        ensures held { (name : List ℕ) → held result name ≡ Some None }
        ensures counts { (result.open_faults ≡ 0) × (result.taken ≡ 0) }
        ensures left { left result ≡ Some [] }
        ensures most { most_at_once result ≡ 2 ^ 64 - 1 }
    {
        SteadyFiles {
            entries: Vec::new(alloc),
            open: None,
            most_at_once: usize::MAX,
            open_faults: 0,
            taken: 0,
            alloc,
        }
    }

    /// Sets the file of a name. A file that was begun is so no more.
    pub fn add(&mut self, name: &str, bytes: &[u8]) -> Result<(), AllocError>
        ensures this { OnOk result (held self.new name.now ≡ Some (Some bytes.now)) }
        ensures others { (other : List ℕ) → other ≢ name.now → held self.new other ≡ held self.old other }
        ensures err { OnErr result ((other : List ℕ) → held self.new other ≡ held self.old other) }
        ensures ended { OnOk result (left self.new ≡ Some []) }
        ensures goes_on { OnErr result (left self.new ≡ left self.old) }
        ensures counts { SameCounts self.old self.new }
        ensures most { most_at_once self.new ≡ most_at_once self.old }
    {
        let mut entry = Entry::new(self.alloc);
        entry.name.append(name.as_bytes())?;
        entry.bytes.append(bytes)?;
        self.entries.insert(0, entry)?;
        self.open = None;
        Ok(())
    }

    /// Lets each take give at most n bytes.
    pub fn piece(&mut self, n: usize)
        requires { 0 < n }
        ensures most { most_at_once self.new ≡ n }
        ensures held { (name : List ℕ) → held self.new name ≡ held self.old name }
        ensures left { left self.new ≡ left self.old }
        ensures counts { SameCounts self.old self.new }
    {
        self.most_at_once = n;
    }
}

impl Files for SteadyFiles {
    ghost use Rattle.std.specs.Prelude.{true};
    ghost use Rattle.semgus_io.specs.Steady.{held, left};

    ghost held = { held };

    ghost left = { left };

    ghost steady = { λ _. true };

    ghost open_faults = { λ s. s.open_faults };

    ghost read_faults = { λ _. 0 };

    ghost taken = { λ s. s.taken };

    fn begin(&mut self, name: &str) -> Result<(), Failed> {
        self.open = None;
        if let Some(entry) = find(self.entries.as_slice(), name.as_bytes()) {
            self.open = Some(Place { entry, at: 0 });
            return Ok(());
        }
        self.open_faults = self.open_faults.saturating_add(1);
        Err(Failed)
    }

    fn take(&mut self, buf: &mut [u8]) -> Result<usize, Failed> {
        let taken = self.taken;
        let Some(place) = self.open else {
            return Ok(0);
        };
        let Some(entry) = self.entries.get(place.entry) else {
            return Ok(0);
        };
        let count = copy_from(entry.bytes.as_slice(), place.at, self.most_at_once, buf);
        self.open = Some(Place {
            entry: place.entry,
            at: place.at + count,
        });
        self.taken = taken.saturating_add(count as u64);
        Ok(count)
    }
}
