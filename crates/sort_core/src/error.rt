use std::alloc::AllocError;
use syntax_core::Fault;
use thiserror::Error;

/// Why a command was not taken.
#[derive(Clone, Copy, Debug, PartialEq, Eq, Drop, Error)]
pub enum ElabError {
    #[error("the file is refused")]
    Fault(Fault),
    #[error("out of memory")]
    Memory,
}

impl From<AllocError> for ElabError {
    ghost use Rattle.std.specs.Prelude.{◌≡◌};
    ghost use Rattle.sort_core.specs.declared.error.ElabError.TheVariants.{Memory};

    ghost from_gives = { λ _ e. e ≡ Memory };

    fn from(_error: AllocError) -> ElabError {
        ElabError::Memory
    }
}
