//! What is proved of the definitions alone.

ghost use Rattle.pd_explain.specs.Laws.{AnsweredWithTheFirst, RefusedWhereBroken};

/// A refusal applies to an edit exactly where its rule is broken at some place.
pub fn refused_where_broken()
    ensures { RefusedWhereBroken }
{}

/// An edit that is refused is answered with the refusal of its first reason.
pub fn answered_with_the_first()
    ensures { AnsweredWithTheFirst }
{}
