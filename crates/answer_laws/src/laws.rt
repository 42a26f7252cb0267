//! Laws of the texts of answers, for whoever builds on them. The functions do nothing.
ghost use Rattle.answer_laws.specs.Valid.{ValidAnswersReadBack};
ghost use Rattle.answer_laws.specs.Laws.{AnswersReadBack, LiteralsReadBack, NumeralsReadBack, TermsReadBack};

/// The digits that are printed of a number below 10^64 are a numeral of that number.
pub fn numerals_read_back()
    ensures { NumeralsReadBack }
{}

/// The text of a value in range spells a literal of that value.
pub fn literals_read_back()
    ensures { LiteralsReadBack }
{}

/// The text of a term of a signature whose names can be spelled spells one form, which no test finds bad and which stands
/// for the term. Its lists nest at most 200 deep, since no form has more.
pub fn terms_read_back()
    ensures { TermsReadBack }
{}

/// The text that is printed of an answer spells forms that are read as that very answer.
pub fn answers_read_back()
    ensures { AnswersReadBack }
{}

/// The text that is printed of a valid answer to a sound problem spells forms that are read as that very answer, so its
/// verdict is Valid again.
pub fn valid_answers_read_back()
    ensures { ValidAnswersReadBack }
{}
