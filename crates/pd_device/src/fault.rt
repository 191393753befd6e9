//! What ends a session or a report.

ghost use Rattle.std.specs.Prelude.{◌≡◌, ℕ};
ghost use Rattle.pd_device.specs.Numbers.{number_of};

use thiserror::Error;

/// Why a session or a report ended early.
#[derive(Clone, Copy, Debug, PartialEq, Eq, Error)]
pub enum BenchFault {
    #[error("the edit script could not be read")]
    ReadFailed,
    #[error("a text could not be written")]
    WriteFailed,
    #[error("there was no memory")]
    Memory,
    #[error("the edit script has more than 16,777,216 bytes")]
    ReaderTooLong,
}

impl BenchFault {
    /// The number that the fault is shown by.
    pub fn number(&self) -> u8
        ensures { result ≡ number_of self.now }
    {
        match self {
            BenchFault::ReadFailed => 40,
            BenchFault::WriteFailed => 41,
            BenchFault::Memory => 42,
            BenchFault::ReaderTooLong => 43,
        }
    }
}
