//! What is proved of the definitions alone.

ghost use Rattle.pd_scenario_text.specs.Laws.{LeastRefusal, AcceptedExactly, AcceptedIsValid, OneAnswer, OneCount, NumbersDiffer};

/// A refusal is answered exactly where it applies to the file and none of a lesser number does.
pub fn least_refusal()
    ensures { LeastRefusal }
{}

/// A file is accepted exactly where no refusal applies to it, and then as what its tables say.
pub fn accepted_exactly()
    ensures { AcceptedExactly }
{}

/// A file to which no refusal applies is a valid scenario.
pub fn accepted_is_valid()
    ensures { AcceptedIsValid }
{}

/// A text has one answer, but for want of memory.
pub fn one_answer()
    ensures { OneAnswer }
{}

/// A text has one number of ports, but for want of memory.
pub fn one_count()
    ensures { OneCount }
{}

/// No two refusals have one number.
pub fn numbers_differ()
    ensures { NumbersDiffer }
{}
