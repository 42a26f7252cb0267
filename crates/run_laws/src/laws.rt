//! Laws of what is found of the bytes of files, for whoever builds on them. The functions do nothing.
ghost use Rattle.run_laws.specs.Laws.{FoundAnswersAreValid, JudgedNamesAreSpelled, JudgedProblemsAreSound};

/// The names of the constructors and of the relations that an accepted text states are ones that symbols spell.
pub fn judged_names_are_spelled()
    ensures { JudgedNamesAreSpelled }
{}

/// The parts of a problem that an accepted text states fit together.
pub fn judged_problems_are_sound()
    ensures { JudgedProblemsAreSound }
{}

/// What `solve` prints of an answer, kept in a file of at most 8,388,608 bytes, is `valid` when it is checked with the same
/// problem and the same height.
pub fn found_answers_are_valid()
    ensures { FoundAnswersAreValid }
{}
