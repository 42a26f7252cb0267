ghost use Rattle.std.specs.Prelude.{◌≡◌, ◌≢◌, ◌+◌, ◌^◌, ◌<◌, ◌≤◌, ℕ, List, [], length, IfOk, OnOk, IsTrue};
ghost use Rattle.semgus_io.specs.Counts.{Rises};
ghost use Rattle.semgus_app.specs.Contents.{AreContents, WasFedPiece, WasFedTo};

use crate::contents::Contents;
use crate::feed::Feed;
use semgus_io::{Failed, Files};
use std::alloc::AllocError;

/// Why the bytes of a file could not be had.
#[derive(Debug, Drop, PartialEq, Eq)]
enum ReadError {
    Failed,
    Memory,
}

impl From<Failed> for ReadError {
    ghost use Rattle.semgus_app.specs.declared.read.ReadError.TheVariants as variant;

    ghost from_gives = { λ _ e. e ≡ variant.Failed };

    fn from(_: Failed) -> Self {
        ReadError::Failed
    }
}

impl From<AllocError> for ReadError {
    ghost use Rattle.semgus_app.specs.declared.read.ReadError.TheVariants as variant;

    ghost from_gives = { λ _ e. e ≡ variant.Memory };

    fn from(_: AllocError) -> Self {
        ReadError::Memory
    }
}

/// The number of bytes that are taken at once.
const CHUNK: usize = 4096;

/// Begins a file, and feeds its bytes in pieces, to its end or to the byte past its limit. Nothing was fed before.
pub fn read_file<F: Files, T: Feed + Drop>(
    name: &str,
    limit: usize,
    files: &mut F,
    fed: T,
) -> Result<Contents<T>, AllocError>
    requires limit { limit + 1 < 2 ^ 32 }
    requires fresh { T.was_fed fed [] }
    ensures contents { IfOk result (λ contents. AreContents T.was_fed (F.held files.old) (F.steady files.old) (record { name = name.now; limit = limit })
        (F.open_faults files.old) (F.open_faults files.new) (F.read_faults files.old) (F.read_faults files.new) contents) }
    ensures taken { F.taken files.new ≤ F.taken files.old + (limit + 1) }
    ensures held { F.held files.new ≡ F.held files.old }
    ensures steady { F.steady files.new ≡ F.steady files.old }
{
    if files.begin(name).is_err() {
        return Ok(Contents::Closed);
    }
    let mut fed = fed;
    match feed_to_limit(files, limit, &mut fed) {
        Ok(()) => Ok(Contents::Read(fed)),
        Err(ReadError::Failed) => Ok(Contents::Failed),
        Err(ReadError::Memory) => Err(AllocError),
    }
}

/// Feeds the bytes of the begun file, to its end or to the byte past the limit.
fn feed_to_limit<F: Files, T: Feed>(
    files: &mut F,
    limit: usize,
    fed: &mut T,
) -> Result<(), ReadError>
    requires limit { limit + 1 < 2 ^ 32 }
    requires fresh { T.was_fed fed.old [] }
    ensures all { OnOk result (WasFedTo T.was_fed (F.left files.old) (limit + 1) fed.new) }
    ensures failed { result ≡ Err ReadError.Failed → Rises (F.read_faults files.old) (F.read_faults files.new) }
    ensures faultless { result ≢ Err ReadError.Failed → F.read_faults files.new ≡ F.read_faults files.old }
    ensures kept { F.read_faults files.old ≤ F.read_faults files.new }
    ensures open_faults { F.open_faults files.new ≡ F.open_faults files.old }
    ensures taken { F.taken files.new ≤ F.taken files.old + (limit + 1) }
    ensures held { F.held files.new ≡ F.held files.old }
    ensures steady { F.steady files.new ≡ F.steady files.old }
    ensures steady_reads { IsTrue (F.steady files.old) → result ≢ Err ReadError.Failed }
{
    let most = limit + 1;
    let mut chunk = [0u8; CHUNK];
    let mut count = 0;
    while count < most {
        let room = (most - count).min(CHUNK);
        let size = feed_piece(files, &mut chunk[..room], fed)?;
        if size == 0 {
            break;
        }
        count += size;
    }
    Ok(())
}

/// Takes the next piece of the begun file into the buffer and feeds it, and answers its size: 0 at the end.
fn feed_piece<F: Files, T: Feed>(
    files: &mut F,
    buffer: &mut [u8],
    fed: &mut T,
) -> Result<usize, ReadError>
    requires some { 0 < length buffer.old }
    requires room { (bytes : List ℕ) × T.was_fed fed.old bytes × (length bytes + length buffer.old < 2 ^ 32) }
    ensures more { IfOk result (λ n. (bytes : List ℕ) → T.was_fed fed.old bytes → WasFedPiece T.was_fed (F.left files.old) (F.left files.new) bytes n fed.new) }
    ensures within { IfOk result (λ n. n ≤ length buffer.old) }
    ensures failed { result ≡ Err ReadError.Failed → Rises (F.read_faults files.old) (F.read_faults files.new) }
    ensures faultless { result ≢ Err ReadError.Failed → F.read_faults files.new ≡ F.read_faults files.old }
    ensures kept { F.read_faults files.old ≤ F.read_faults files.new }
    ensures open_faults { F.open_faults files.new ≡ F.open_faults files.old }
    ensures taken { IfOk result (λ n. F.taken files.new ≤ F.taken files.old + n) }
    ensures taken_at_most { F.taken files.new ≤ F.taken files.old + length buffer.old }
    ensures held { F.held files.new ≡ F.held files.old }
    ensures steady { F.steady files.new ≡ F.steady files.old }
    ensures steady_reads { IsTrue (F.steady files.old) → result ≢ Err ReadError.Failed }
{
    let size = files.take(buffer)?;
    fed.feed(&buffer[..size])?;
    Ok(size)
}
