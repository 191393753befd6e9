//! Laws of the definitions. They run nothing.

ghost use Rattle.pd_misfits.specs.Laws.{WordsAreWhole};
ghost use Rattle.pd_misfits.specs.Marks.{LinesAreRight};

/// The words that hints know of kinds of events, plugs and modes are those that files are read by, and no others.
pub fn words_are_whole()
    ensures { WordsAreWhole }
{}

/// The line that is found for a key begins with that key, behind blanks and brackets, and the line that is found for a table with the
/// table's name; its number counts the lines of the text from 1.
pub fn lines_are_right()
    ensures { LinesAreRight }
{}
