//! What keeps a line from being an edit or a show, and an edit from being made.

ghost use Rattle.std.specs.Prelude.{◌≡◌, ℕ};
ghost use Rattle.pd_edit_lines.specs.declared.fault.EditFault.TheVariants.{Memory};
ghost use Rattle.pd_edit_lines.specs.Numbers.{number_of};

use std::alloc::AllocError;
use thiserror::Error;

/// Why a line is refused: the first of these that applies.
#[derive(Clone, Copy, Debug, PartialEq, Eq, Error)]
pub enum EditFault {
    #[error("the line has other words, or is too long")]
    Syntax,
    #[error("an event has the id already")]
    IdTaken,
    #[error("no event has the id")]
    NoSuchId,
    #[error("there is no such port")]
    NoSuchPort,
    #[error("no cable or no sink has the name")]
    NoSuchName,
    #[error("an event names the cable or the sink")]
    InUse,
    #[error("a number is out of its range")]
    Range,
    #[error("the first supply isn't of 5 V, or the voltages don't rise")]
    Supplies,
    #[error("the floors add to more than the budget")]
    Floors,
    #[error("there are as many events, cables or sinks as may be")]
    Limit,
    #[error("there is no memory for the edited scenario or its run")]
    Memory,
}

impl EditFault {
    /// The number that a refusal is shown by.
    pub fn number(&self) -> u8
        ensures { result ≡ number_of self.now }
    {
        match self {
            EditFault::Syntax => 20,
            EditFault::IdTaken => 21,
            EditFault::NoSuchId => 22,
            EditFault::NoSuchPort => 23,
            EditFault::NoSuchName => 24,
            EditFault::InUse => 25,
            EditFault::Range => 26,
            EditFault::Supplies => 27,
            EditFault::Floors => 28,
            EditFault::Limit => 29,
            EditFault::Memory => 30,
        }
    }
}

impl From<AllocError> for EditFault {
    ghost from_gives = { λ _ fault. fault ≡ Memory };

    fn from(_: AllocError) -> EditFault {
        Self::Memory
    }
}
