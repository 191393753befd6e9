//! Laws of the definitions. They run nothing.

ghost use Rattle.pd_desk.specs.Laws.{DeskIsSession, EditsLead, RefusalsAreTold, ThereAndBack};

/// Over input that has no line of the desk's own, the desk reads and writes what a session does, and ends as one.
pub fn desk_is_session()
    ensures { DeskIsSession }
{}

/// Beside each refusal something is told.
pub fn refusals_are_told()
    ensures { RefusalsAreTold }
{}

/// The lines of the edits that stand lead from the first scenario to the one that stands, whatever was taken back and made again.
pub fn edits_lead()
    ensures { EditsLead }
{}

/// An edit that was taken back and made again stands as before.
pub fn there_and_back()
    ensures { ThereAndBack }
{}
