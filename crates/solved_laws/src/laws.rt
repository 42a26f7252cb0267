//! Laws of the text of a solving term with its derivations, for whoever builds on them. The functions do nothing.
ghost use Rattle.solved_laws.specs.Laws.{SolvedAnswersReadBack};

/// The text that is printed of a term of the language and derivations of each constraint on it spells forms that are read
/// as a valid answer: that term, its size and its nodes, with these steps and the same step for each constraint. The term
/// has at most 199 constructors, the derivations at most 2^64 steps, and symbols spell the names of the signature.
pub fn solved_answers_read_back()
    ensures { SolvedAnswersReadBack }
{}
