ghost use Rattle.std.specs.Prelude.{◌≡◌};
ghost use Rattle.semgus_app.specs.Statuses.{number_of};

use checking_core::Flaw;
use syntax_core::Fault;

/// Which of the files that the words name.
#[derive(Clone, Copy, Debug, PartialEq, Eq)]
pub enum Which {
    Problem,
    Answer,
}

/// How a run ended.
#[derive(Clone, Copy, Debug, PartialEq, Eq)]
pub enum Status {
    /// an answer text was printed
    Found,
    /// the canonical text was printed
    Shown,
    /// the answer file holds an answer to the problem, with valid derivations
    Valid,
    /// `none` was printed: no term solves the problem within the bounds
    NoTerm,
    /// the answer file holds no such answer
    Invalid(Flaw),
    /// the words have none of the forms
    BadWords,
    Refused(Which, Fault),
    /// a file could not be begun
    CannotOpen,
    /// a read failed
    ReadFault,
    /// a write failed; a first part of the output may be written
    WriteFault,
    /// memory was refused; nothing was written
    Memory,
}

impl Status {
    /// The exit status of the program.
    pub fn number(&self) -> u8
        ensures { result ≡ number_of self.now }
    {
        match self {
            Status::Found | Status::Shown | Status::Valid => 0,
            Status::NoTerm | Status::Invalid(_) => 1,
            Status::BadWords => 2,
            Status::Refused(_, _) => 3,
            Status::CannotOpen | Status::ReadFault => 4,
            Status::WriteFault => 5,
            Status::Memory => 6,
        }
    }
}
