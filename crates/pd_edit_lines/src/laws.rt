//! What is proved of the table alone.

ghost use Rattle.pd_edit_lines.specs.Laws.{TableIsGrammar};

/// The table has the lines of the grammar and no others: those that are read, and not refused with 20.
pub fn table_is_grammar()
    ensures { TableIsGrammar }
{}
