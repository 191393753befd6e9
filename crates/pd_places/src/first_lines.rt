//! The first lines of what is told of a file.

ghost use Rattle.std.specs.Prelude.{◌≡◌, [], OnOk};
ghost use Rattle.pd_places.specs.FirstLines.{added, is_full, with_byte};

use std::alloc::{AllocError, Global};
use std::marker::Model;

/// So many places of a file are told at most.
pub const MOST_PLACES: u64 = 20;

/// The first lines of a text: as many as are told, and one more where there are more. Nothing behind that is kept.
#[derive(Drop)]
pub struct FirstLines {
    text: Vec<u8>,
    // How many lines end in the text.
    lines: u64,
}

impl Model for FirstLines {
    ghost use Rattle.std.specs.Prelude.{◌≡◌, ℕ, List};
    ghost use Rattle.pd_places.specs.FirstLines.{line_count};

    ghost Value = { List ℕ };

    ghost view = { λ f. f.text.items };

    ghost invariant = { λ f. f.lines ≡ line_count f.text.items };
}

impl FirstLines {
    /// No line yet.
    pub fn new(alloc: Global) -> FirstLines
        ensures { result ≡ [] }
    {
        FirstLines {
            text: Vec::new(alloc),
            lines: 0,
        }
    }

    /// Whether there are more lines than are told.
    pub fn is_full(&self) -> bool
        ensures { result ≡ is_full self.now }
    {
        MOST_PLACES < self.lines
    }

    /// One more byte, where there aren't more lines than are told already.
    fn push(&mut self, byte: u8) -> Result<(), AllocError>
        ensures { OnOk result (self.new ≡ with_byte self.old byte) }
    {
        if self.is_full() {
            return Ok(());
        }
        self.text.push(byte)?;
        if byte == b'\n' {
            self.lines += 1;
        }
        Ok(())
    }

    /// Adds more of the text.
    ///
    /// # Errors
    /// There is no memory; some of it may be added.
    pub fn add(&mut self, more: &[u8]) -> Result<(), AllocError>
        ensures { OnOk result (self.new ≡ added self.old more.now) }
    {
        for byte in more {
            self.push(*byte)?;
        }
        Ok(())
    }

    /// The lines that are kept.
    pub fn as_slice(&self) -> &[u8]
        ensures { result.now ≡ self.now }
    {
        self.text.as_slice()
    }
}
