//! What holds of what is told. The laws run nothing.

ghost use Rattle.pd_why.specs.Bounds.{LeastBoundsAreNamed};
ghost use Rattle.pd_why.specs.Laws.{CapabilitiesAreOffered, DetachesAreTold, LimitsAreKnown, RequestsAreExplained, SharesAreTold};
ghost use Rattle.pd_why.specs.TellingLaws.{FactsAreObjects};

/// The bounds that are named as setting an offered current are the least ones, all of them.
pub fn least_bounds_are_named()
    ensures { LeastBoundsAreNamed }
{}

/// The currents that are told of an offer are what the shared budget offers by the free power and the limit that are told, and a request
/// is told to fit where its power is within what is free.
pub fn shares_are_told()
    ensures { SharesAreTold }
{}

/// The objects of each Source_Capabilities on the line are those of the last offer that is told, or of a packet that is sent again.
pub fn capabilities_are_offered()
    ensures { CapabilitiesAreOffered }
{}

/// A Request that is told has the objects that the sink's rule gives for the sink and the offer by which it is told, and these are those
/// of the sink's record when it was sent. One that isn't told is the one before, sent again.
pub fn requests_are_explained()
    ensures { RequestsAreExplained }
{}

/// How a limit is told to be known follows the source's record: its engine was told so when it came to this limit.
pub fn limits_are_known()
    ensures { LimitsAreKnown }
{}

/// A cable is told to be pulled out exactly where it is.
pub fn detaches_are_told()
    ensures { DetachesAreTold }
{}

/// As JSON each fact is an object on a line of its own, whose members are those of its pieces, in their order.
pub fn facts_are_objects()
    ensures { FactsAreObjects }
{}
