ghost use Rattle.std.specs.Prelude.{ℕ, List, IfOk};
ghost use Rattle.elab_core.specs.Feeding.{HasRoom, IsJudging};
ghost use Rattle.elab_core.specs.Judging.{Judges};

use crate::feed::Feed;
use elab_core::{ElabError, Judge};
use problem_core::Problem;
use std::alloc::AllocError;
use syntax_core::Fault;

/// The greatest number of bytes of a problem file.
pub const FILE_LIMIT: usize = 1_048_576;

impl Feed for Judge {
    ghost was_fed = { IsJudging };

    fn feed(&mut self, piece: &[u8]) -> Result<(), AllocError> {
        Judge::feed(self, piece)
    }
}

/// What a judge answers at the end.
pub fn judgement(judge: Judge) -> Result<Result<Problem, Fault>, AllocError>
    requires { HasRoom judge 0 }
    ensures { IfOk result (λ judged. (bytes : List ℕ) → IsJudging judge bytes → Judges bytes judged) }
{
    match judge.finish() {
        Ok(problem) => Ok(Ok(problem)),
        Err(ElabError::Fault(fault)) => Ok(Err(fault)),
        Err(ElabError::Memory) => Err(AllocError),
    }
}
