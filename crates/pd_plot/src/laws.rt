//! What holds of the marks of rows. The laws run nothing.

ghost use Rattle.pd_plot.specs.Laws.{GreaterIsDarker, GreaterIsFurther, GreaterIsHigher, PointsAreWithin};

/// Each point is within its panel.
pub fn points_are_within()
    ensures { PointsAreWithin }
{}

/// A greater value is never lower than a lesser one.
pub fn greater_is_higher()
    ensures { GreaterIsHigher }
{}

/// A greater number of the set is never further left.
pub fn greater_is_further()
    ensures { GreaterIsFurther }
{}

/// A greater value never has a colour that stands before that of a lesser one.
pub fn greater_is_darker()
    ensures { GreaterIsDarker }
{}
