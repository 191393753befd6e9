//! What holds of fresh moves.

ghost use Rattle.pd_keep.specs.Fresh.{OneCount, NoneFreshAgain};

/// How many moves are fresh is one number.
pub fn one_count()
    ensures { OneCount }
{}

/// A plan that is run again has no fresh move.
pub fn none_fresh_again()
    ensures { NoneFreshAgain }
{}
