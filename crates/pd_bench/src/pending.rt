//! A line that hasn't ended yet, in a fixed space.

ghost use Rattle.std.specs.Prelude.{◌≡◌, ◌≢◌, ◌≤◌, List, ℕ, length, [], ◌==◌};
ghost use Rattle.std.specs.Str.Lines.{strip_carriage_return};
ghost use Rattle.pd_bench.specs.Pending.{kept_after};

use arrayvec::ArrayVec;
use std::marker::Model;

/// The most bytes that a line needs: 256, a carriage return, and one that stands for all others.
const ROOM: usize = 258;

/// The bytes of a line so far, or 258 bytes that stand for them where there are more.
#[derive(Drop)]
pub struct Pending {
    bytes: ArrayVec<u8, ROOM>,
}

impl Model for Pending {
    ghost Value = { List ℕ };

    ghost view = { λ p. p.bytes.items };

    ghost invariant = { λ p. length p.bytes.items ≤ 258 };
}

impl Pending {
    /// A line of no bytes.
    pub fn new() -> Self
        ensures { result ≡ [] }
    {
        Pending {
            bytes: ArrayVec::new(),
        }
    }

    /// Takes one more byte of the line.
    pub fn push(&mut self, byte: u8)
        ensures { self.new ≡ kept_after self.old byte }
    {
        if self.bytes.len() < ROOM {
            self.bytes.push(byte);
            return;
        }
        let merged = if self.bytes[257] == b' ' { byte } else { b'x' };
        self.bytes.truncate(257);
        self.bytes.push(merged);
    }

    /// Ends the line before a line feed.
    pub fn end(&mut self)
        ensures { self.new ≡ strip_carriage_return self.old }
    {
        let count = self.bytes.len();
        if count > 0 && self.bytes[count - 1] == b'\r' {
            self.bytes.truncate(count - 1);
        }
    }

    /// Whether the line has no byte yet.
    pub fn is_empty(&self) -> bool
        ensures { result ≡ (length self.now == 0) }
    {
        self.bytes.is_empty()
    }

    /// Begins the next line.
    pub fn clear(&mut self)
        ensures { self.new ≡ [] }
    {
        self.bytes.clear();
    }

    /// The line's bytes, or those that stand for them.
    pub fn as_slice(&self) -> &[u8]
        ensures { result.now ≡ self.now }
    {
        self.bytes.as_slice()
    }
}
