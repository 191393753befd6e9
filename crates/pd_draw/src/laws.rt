//! What holds of pictures. It runs nothing.

ghost use Rattle.pd_draw.specs.Laws.{TitlesAreLines};
ghost use Rattle.pd_draw.specs.Phases.{BandsAreTrue, PhasesStand};

/// What a browser tells of what a move starts is a line of the whole show, whatever window and port are drawn.
pub fn titles_are_lines()
    ensures { TitlesAreLines }
{}

/// The phase of a port's lane is that of the port's record, and it is `contract` exactly while that record has a contract.
pub fn phases_stand()
    ensures { PhasesStand }
{}

/// Each band of a lane begins and ends with the moves by which the port goes into its phase and out of it, or with the window; phases
/// that stand for less than a pixel before are drawn as this one.
pub fn bands_are_true()
    ensures { BandsAreTrue }
{}
