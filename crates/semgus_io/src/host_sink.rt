ghost use Rattle.std.specs.Prelude.{◌≡◌, None};

use crate::{Failed, Sink};
use std::io::Print;

/// Standard output. It tells no bytes.
///
/// What reaches it is trusted; the count of faults is kept here, and is proved.
#[derive(Drop)]
pub struct HostSink<'a, P: Print> {
    runtime: &'a P,
    faults: u64,
}

impl<'a, P: Print> HostSink<'a, P> {
    /// Opens nothing.
    pub fn new(runtime: &'a P) -> HostSink<'a, P>
        ensures { result.faults ≡ 0 }
    {
        HostSink { runtime, faults: 0 }
    }
}

impl<P: Print> Sink for HostSink<'_, P> {
    ghost written = { λ _. None };

    ghost faults = { λ s. s.faults };

    /// A write that takes 0 bytes is a failure.
    fn put(&mut self, bytes: &[u8]) -> Result<usize, Failed> {
        match self.runtime.write_some(bytes) {
            Ok(count) if count > 0 => Ok(count),
            _ => {
                self.faults = self.faults.saturating_add(1);
                Err(Failed)
            }
        }
    }
}
