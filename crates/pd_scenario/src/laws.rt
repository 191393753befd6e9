//! What is proved of the definitions alone.

ghost use Rattle.pd_scenario.specs.Laws.{ValidIsPlan, ScriptIsInOrder, OneScript, ForceIsLast};

/// The plan of a valid scenario keeps what each plan keeps.
pub fn valid_is_plan()
    ensures { ValidIsPlan }
{}

/// A port's script is exactly its events in the order of their times and ids.
pub fn script_is_in_order()
    ensures { ScriptIsInOrder }
{}

/// No other list than its script has a port's events in that order.
pub fn one_script()
    ensures { OneScript }
{}

/// The budget at a time is that of the last change at or before it.
pub fn force_is_last()
    ensures { ForceIsLast }
{}
