//! How far a sweep is, told on a terminal.

ghost use Rattle.std.specs.Prelude.{◌≡◌};

use crate::answers::lines_in;
use pd_device::{DeviceFault, TextOut};
use std::fmt;
use std::rt::Clock;
use std::time::{Duration, Instant};

/// The least milliseconds between two words of how far it is.
const PAUSE: u128 = 100;

/// How many runs will be made, where that is known before, and how many lines stand before theirs.
#[derive(Clone, Copy, Debug)]
pub struct Expected {
    pub total: Option<u64>,
    pub heads: u64,
}

/// Passes the lines of a sweep on, and tells a terminal how many runs were made, ten times a second at most.
#[derive(Drop)]
pub struct Watched<'a, W, C, E> {
    pub lines: W,
    clock: &'a C,
    terminal: &'a E,
    expected: Expected,
    told_of: u64,
    began: Instant,
    told: Instant,
    is_shown: bool,
}

impl<'a, W: TextOut, C: Clock, E: Print> TextOut for Watched<'a, W, C, E> {
    ghost taken = { λ w. W.taken w.lines };

    ghost failures = { λ w. W.failures w.lines };

    fn write(&mut self, bytes: &[u8]) -> Result<usize, DeviceFault> {
        if !bytes.is_empty() {
            self.erase();
        }
        let count = self.lines.write(bytes)?;
        self.told_of = self.told_of.saturating_add(packets_in(bytes, count));
        self.tell();
        Ok(count)
    }
}

impl<'a, W: TextOut, C: Clock, E: Print> Watched<'a, W, C, E> {
    /// What lines of so many runs go through, from a time on.
    pub fn of(lines: W, clock: &'a C, terminal: &'a E, expected: Expected, began: Instant) -> Self
        ensures { result.lines ≡ lines }
    {
        Watched {
            lines,
            clock,
            terminal,
            expected,
            told_of: 0,
            began,
            told: began,
            is_shown: false,
        }
    }

    /// Takes back what the terminal shows, so that a line may follow.
    fn erase(&mut self)
        ensures { self.new.lines ≡ self.old.lines }
    {
        if self.is_shown {
            let _ = self.terminal.print("\r\x1B[K");
            self.is_shown = false;
        }
    }

    /// Tells how far the sweep is, where that was told some time ago and runs are left.
    fn tell(&mut self)
        ensures { self.new.lines ≡ self.old.lines }
    {
        let Ok(now) = Instant::now(self.clock) else {
            return;
        };
        let done = self.told_of.saturating_sub(self.expected.heads);
        if self.expected.total.is_some_and(|total| done >= total) {
            self.erase();
        } else if now.duration_since(self.told).as_millis() >= PAUSE {
            self.show(done, now);
        }
    }

    /// Shows how many runs were made by now, in place of what the terminal shows.
    fn show(&mut self, done: u64, now: Instant)
        ensures { self.new.lines ≡ self.old.lines }
    {
        self.erase();
        let passed = now.duration_since(self.began);
        let _ = match self.expected.total {
            Some(total) => print!(self.terminal;
                "{} of {} packets, {} s left",
                Grouped(done),
                Grouped(total),
                seconds_left(passed, done, total)
            ),
            None => print!(self.terminal; "{} runs, {} s", Grouped(done), passed.as_secs()),
        };
        self.told = now;
        self.is_shown = true;
    }
}

/// How many runs were made, by what a sweep writes: each has a line, or is told by no byte where it has none.
fn packets_in(bytes: &[u8], count: usize) -> u64 {
    if bytes.is_empty() {
        1
    } else {
        lines_in(bytes, count)
    }
}

/// How many seconds the rest takes, where it goes on as it went.
fn seconds_left(passed: Duration, done: u64, total: u64) -> u128 {
    let left = u128::from(total.saturating_sub(done));
    passed.as_millis().saturating_mul(left) / u128::from(done.max(1)) / 1_000
}

/// A number with a comma before each three of its digits.
#[derive(Clone, Copy, Debug)]
struct Grouped(u64);

impl fmt::Display for Grouped {
    fn fmt<W: fmt::Write>(&self, f: &mut fmt::Formatter<W>) -> fmt::Result {
        let (millions, thousands, ones) = (
            self.0 / 1_000_000,
            self.0 / 1_000 % 1_000,
            self.0 % 1_000,
        );
        match (millions, thousands) {
            (0, 0) => write!(f, "{ones}"),
            (0, _) => write!(f, "{thousands},{ones:03}"),
            _ => write!(f, "{millions},{thousands:03},{ones:03}"),
        }
    }
}
