//! Where answers go, and what is known of what has gone there.

use std::io;
use std::io::{ErrorKind, Write};

/// A writer, how many lines it has taken, and whether it is a pipe that nobody reads any more.
#[derive(Drop)]
pub struct Counted<W> {
    pub writer: W,
    pub lines: u64,
    pub is_closed: bool,
}

impl<W: Write> Write for Counted<W> {
    ghost contents = { λ s. W.contents s.writer };

    fn write(&mut self, bytes: &[u8]) -> io::Result<usize> {
        match self.writer.write(bytes) {
            Ok(count) => {
                self.lines = self.lines.saturating_add(lines_in(bytes, count));
                Ok(count)
            }
            Err(fault) => {
                self.is_closed = fault.kind() == ErrorKind::BrokenPipe;
                Err(fault)
            }
        }
    }

    fn flush(&mut self) -> io::Result<()> {
        self.writer.flush()
    }
}

impl<W> Counted<W> {
    /// A writer that has taken nothing.
    pub fn of(writer: W) -> Self {
        Counted {
            writer,
            lines: 0,
            is_closed: false,
        }
    }
}

/// How many lines end within the first bytes.
pub fn lines_in(bytes: &[u8], count: usize) -> u64 {
    let mut lines: u64 = 0;
    for byte in bytes.iter().take(count) {
        if *byte == b'\n' {
            lines = lines.saturating_add(1);
        }
    }
    lines
}
