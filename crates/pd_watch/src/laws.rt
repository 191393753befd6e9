//! What holds of what is watched.

ghost use Rattle.pd_watch.specs.Truth.{PortsAreWatched, TakersAreNamed};

/// Along a run each port is watched as its record has it: whether something is attached, and which disturbances wait, in their
/// order.
pub fn ports_are_watched()
    ensures { PortsAreWatched }
{}

/// Along a run each packet that starts lost or damaged is so by the disturbance of the event that is named.
pub fn takers_are_named()
    ensures { TakersAreNamed }
{}
