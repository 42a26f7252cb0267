//! Why a stream was refused.
use std::alloc::AllocError;
use thiserror::Error;

/// Where a stream is refused first. Reason 1: the byte neither begins nor continues a token there. Reason 2: a byte of
/// a simple symbol stands after a numeral. Reason 3: the stream ends inside a list or a token, and the place is its
/// length. Reason 4: a `)` where no list is open. Reason 5: a `(` that would open level 201.
#[derive(Clone, Copy, Debug, PartialEq, Eq)]
pub struct LexFault {
    /// the offset of the refused byte
    pub place: u32,
    pub reason: u8,
}

/// Why a reader took no more.
#[derive(Clone, Copy, Debug, PartialEq, Eq, Drop, Error)]
pub enum FeedError {
    #[error("the stream is no spelling")]
    Lex(LexFault),
    #[error("out of memory")]
    Memory,
}

impl From<AllocError> for FeedError {
    ghost use Rattle.std.specs.Prelude.{◌≡◌};
    ghost use Rattle.sexpr_core.specs.declared.fault.FeedError.TheVariants.{Memory};

    ghost from_gives = { λ _ e. e ≡ Memory };

    fn from(_error: AllocError) -> FeedError {
        FeedError::Memory
    }
}
