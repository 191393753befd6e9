//! What is told of a charger holds in each run of each of its plans. The laws run nothing.

ghost use Rattle.pd_guarantee.specs.Laws.{CapabilitiesAreBounded, FreePowerIsBounded, HoldsAreBounded, HoldsAreKept};
ghost use Rattle.pd_guarantee.specs.Laws.{OffersAreBounded, PlansAreOfTheCharger};

/// The plan of each scenario whose ports are set so, and whose budget starts and changes so, is one of the charger's.
pub fn plans_are_of_the_charger()
    ensures { PlansAreOfTheCharger }
{}

/// No port ever holds more than its greatest hold.
pub fn holds_are_bounded()
    ensures { HoldsAreBounded }
{}

/// At each time up to the end of a run what is free to a port is between the least and the most that is told.
pub fn free_power_is_bounded()
    ensures { FreePowerIsBounded }
{}

/// Each supply that a port offers is offered at a current between those that the least and the most free power give.
pub fn offers_are_bounded()
    ensures { OffersAreBounded }
{}

/// So is each supply in each Source_Capabilities on the line, but for a packet that was there before and is sent again.
pub fn capabilities_are_bounded()
    ensures { CapabilitiesAreBounded }
{}

/// A change of the budget leaves a port as it is where that holds no more than is told.
pub fn holds_are_kept()
    ensures { HoldsAreKept }
{}
