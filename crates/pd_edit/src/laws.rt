//! What is proved of the definitions alone.

ghost use Rattle.pd_edit.specs.Laws.{LeastRefusal};

/// Of the refusals that apply to an edit, the one of the least number is answered.
pub fn least_refusal()
    ensures { LeastRefusal }
{}
