//! Laws of the definitions. They run nothing.

ghost use Rattle.pd_save.specs.Laws.{WordsAreRead};
ghost use Rattle.pd_save.specs.SchemaLaws.{SchemaIsWhole};

/// Each word and each number reads as what it is written for.
pub fn words_are_read()
    ensures { WordsAreRead }
{}

/// The words and numbers of the schema's lists are those by which files are read.
pub fn schema_is_whole()
    ensures { SchemaIsWhole }
{}
