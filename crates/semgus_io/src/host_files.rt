ghost use Rattle.std.specs.Prelude.{◌≡◌, None, false};

use crate::{Failed, Files};
use std::io::Read;
use std::{fs, rt};

/// The files of the system, by path. They tell no bytes.
///
/// What they give is trusted; the counts of faults are kept here, and are proved.
#[derive(Drop)]
pub struct HostFiles<'a, R: rt::Files> {
    runtime: &'a R,
    open: Option<R::File>,
    open_faults: u64,
    read_faults: u64,
    taken: u64,
}

impl<'a, R: rt::Files> HostFiles<'a, R> {
    /// Opens nothing.
    pub fn new(runtime: &'a R) -> HostFiles<'a, R>
        ensures { (result.open_faults ≡ 0) × (result.read_faults ≡ 0) × (result.taken ≡ 0) }
    {
        HostFiles {
            runtime,
            open: None,
            open_faults: 0,
            read_faults: 0,
            taken: 0,
        }
    }
}

impl<R: rt::Files> Files for HostFiles<'_, R> {
    ghost held = { λ _ _. None };

    ghost left = { λ _. None };

    ghost steady = { λ _. false };

    ghost open_faults = { λ h. h.open_faults };

    ghost read_faults = { λ h. h.read_faults };

    ghost taken = { λ h. h.taken };

    fn begin(&mut self, name: &str) -> Result<(), Failed> {
        self.open = None;
        match fs::open(self.runtime, name) {
            Ok(file) => {
                self.open = Some(file);
                Ok(())
            }
            Err(_) => {
                self.open_faults = self.open_faults.saturating_add(1);
                Err(Failed)
            }
        }
    }

    fn take(&mut self, buf: &mut [u8]) -> Result<usize, Failed> {
        let taken = self.taken;
        let Some(file) = &mut self.open else {
            return Ok(0);
        };
        match file.read(buf) {
            Ok(count) => {
                self.taken = taken.saturating_add(count as u64);
                Ok(count)
            }
            Err(_) => {
                self.read_faults = self.read_faults.saturating_add(1);
                Err(Failed)
            }
        }
    }
}
