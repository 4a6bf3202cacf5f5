//! What holds of the words of the command line: the call here does nothing, and its contract is a
//! law.
ghost use Rattle.market_words.specs.Laws.{WordsHaveOneForm};

/// One list of words has one form at most, so what it asks for is fixed.
pub fn words_have_one_form()
    ensures { WordsHaveOneForm }
{}
