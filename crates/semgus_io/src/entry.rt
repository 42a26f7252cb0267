ghost use Rattle.std.specs.Prelude.{◌≡◌, ◌-◌, [], min, length, take, drop, MatchOption, Some, None, slice_get};
ghost use Rattle.semgus_io.specs.Entries.{bytes_of};
ghost use Rattle.semgus_io.specs.declared.entry.Entry.{Entry};

use items::Items;
use std::alloc::Global;

/// How far the begun file was taken.
#[derive(Clone, Copy, Debug)]
pub struct Place {
    pub entry: usize,
    pub at: usize,
}

/// A name and its bytes.
#[derive(Debug, Drop)]
pub struct Entry {
    pub name: Items<u8>,
    pub bytes: Items<u8>,
}

impl Entry {
    pub fn new(alloc: Global) -> Entry
        ensures { result ≡ record { name = []; bytes = [] } }
    {
        Entry {
            name: Items::new(alloc),
            bytes: Items::new(alloc),
        }
    }
}

/// Copies bytes from a place on into the buffer, at most so many as are given, and answers how many.
pub fn copy_from(bytes: &[u8], at: usize, most: usize, buf: &mut [u8]) -> usize
    ensures count { result ≡ min most (min (length buf.old) (length bytes.now - at)) }
    ensures got { take result buf.new ≡ take result (drop at bytes.now) }
{
    if at >= bytes.len() {
        return 0;
    }
    let rest = &bytes[at..];
    let count = rest.len().min(buf.len()).min(most);
    buf[..count].copy_from_slice(&rest[..count]);
    count
}

/// The index of the first entry of the name.
pub fn find(entries: &[Entry], name: &[u8]) -> Option<usize>
    ensures { MatchOption result (bytes_of name.now entries.now ≡ None) (λ i. (e : Entry) × (slice_get entries.now i ≡ Some e) × (bytes_of name.now entries.now ≡ Some e.bytes)) }
{
    for (i, entry) in entries.iter().enumerate() {
        if entry.name.as_slice() == name {
            return Some(i);
        }
    }
    None
}
