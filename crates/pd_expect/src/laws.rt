//! What holds of expectations, of their lines and of reports. It runs nothing.

ghost use Rattle.pd_expect.specs.Laws.{MarginsAreMet, TextsStayInside};
ghost use Rattle.pd_expect.specs.TableLaw.{TableIsGrammar};

/// An expectation of a margin is met exactly where at the end of each instant, up to the end, so much is left of the budget.
pub fn margins_are_met()
    ensures { MarginsAreMet }
{}

/// What stands behind `expect contract`, `expect no contract`, `expect margin`, `expect packet` and `lose` is one of these lines exactly
/// where it doesn't stop.
pub fn table_is_grammar()
    ensures { TableIsGrammar }
{}

/// No text that is put into a report in JUnit's form ends what it stands in: no byte of it begins or ends an element or an attribute,
/// and none is a control character.
pub fn texts_stay_inside()
    ensures { TextsStayInside }
{}
