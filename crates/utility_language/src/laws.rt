//! What holds of lines, words and commands: each call here does nothing, and its contract is a law.
ghost use Rattle.utility_language.specs.Laws.{LinesOfATextLaw, WordsOfALineLaw, OneCommandALineLaw, OneListATextLaw, PrintedIsReadLaw};

/// A line feed ends a line, and bytes behind the last line feed are a line too.
pub fn lines_of_a_text()
    ensures { LinesOfATextLaw }
{}

/// Blanks stand before, between and behind words, and are no part of any.
pub fn words_of_a_line()
    ensures { WordsOfALineLaw }
{}

/// No line has two commands.
pub fn one_command_a_line()
    ensures { OneCommandALineLaw }
{}

/// No text has two lists of commands.
pub fn one_list_a_text()
    ensures { OneListATextLaw }
{}

/// A printed command is a line, and its command is the one that was printed.
pub fn printed_is_read()
    ensures { PrintedIsReadLaw }
{}
