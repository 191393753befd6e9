//! Laws of Discover Identity.

ghost use Rattle.pd_identity.specs.Laws.{ObjectsHaveFields, AnswersAreRead, LimitsAreOfRatings, AnswersTellRatings};

/// Each object has the fields that its message needs.
pub fn objects_have_fields()
    ensures { ObjectsHaveFields }
{}

/// What a plug answers counts as what the plug does.
pub fn answers_are_read()
    ensures { AnswersAreRead }
{}

/// An answer gives the limit of 5,000 mA exactly where the plug acknowledges and the cable is for 5 A.
pub fn limits_are_of_ratings()
    ensures { LimitsAreOfRatings }
{}

/// An answer gives as its limit the most current that the cable is known to carry: 5,000 mA where the plug acknowledges and
/// the cable is for 5 A, else 3,000 mA.
pub fn answers_tell_ratings()
    ensures { AnswersTellRatings }
{}
