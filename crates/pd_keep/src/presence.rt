//! Which notes a span may have.

ghost use Rattle.std.specs.Prelude.{◌≡◌, ◌⊎◌, ◌↔◌, IsTrue};
ghost use Rattle.pd_run.specs.Notes.{Have};
ghost use Rattle.pd_run.specs.declared.note.Note.TheVariants.{Contract, Fault};
ghost use Rattle.pd_keep.specs.Presence.{MayHave, nothing};

use pd_run::{Marks, Note};

/// Whether any of some moves changes a contract, and whether any has a fault, so that a span without such a note is passed over at
/// once. Nearly each span has packets, so of them nothing is noted.
#[derive(Clone, Copy)]
pub struct Presence {
    contract: bool,
    fault: bool,
}

impl Presence {
    /// Of no moves.
    pub fn nothing() -> Presence
        ensures { result ≡ nothing }
    {
        Presence {
            contract: false,
            fault: false,
        }
    }

    /// Of one move more, with these marks.
    pub fn with(self, marks: Marks) -> Presence
        ensures contract { MayHave result Contract ↔ (MayHave self Contract ⊎ Have marks Contract) }
        ensures fault { MayHave result Fault ↔ (MayHave self Fault ⊎ Have marks Fault) }
    {
        Presence {
            contract: self.contract || marks.have(Note::Contract),
            fault: self.fault || marks.have(Note::Fault),
        }
    }

    /// Whether any of the moves may leave such a note.
    pub fn may_have(self, note: Note) -> bool
        ensures { IsTrue result ↔ MayHave self note }
    {
        match note {
            Note::Contract => self.contract,
            Note::Fault => self.fault,
            Note::Packet { .. } => true,
        }
    }
}
