//! What became of the lines of a session.

ghost use Rattle.std.specs.Prelude.{◌≡◌, ◌+◌, ◌≤◌, ◌<◌, ◌^◌};
ghost use Rattle.pd_bench.specs.Session.{answered, counted, no_lines};

/// What became of a line.
#[derive(Clone, Copy, Debug, PartialEq, Eq)]
pub enum Outcome {
    /// A comment or spaces alone.
    Skipped,
    /// An edit that was made.
    Accepted,
    Refused,
    Shown,
}

/// How many edits were accepted, lines were refused, and shows were written.
#[derive(Clone, Copy, Debug, PartialEq, Eq)]
pub struct Tally {
    pub edits: u32,
    pub refused: u32,
    pub shows: u32,
}

impl Tally {
    /// No line was answered yet.
    pub fn new() -> Tally
        ensures { result ≡ no_lines }
    {
        Tally {
            edits: 0,
            refused: 0,
            shows: 0,
        }
    }

    /// Counts a line.
    pub fn count(&mut self, outcome: Outcome)
        requires { answered self.old + 1 < 2 ^ 32 }
        ensures counted { self.new ≡ counted self.old outcome }
        ensures rises { answered self.new ≤ answered self.old + 1 }
    {
        match outcome {
            Outcome::Skipped => {}
            Outcome::Accepted => self.edits += 1,
            Outcome::Refused => self.refused += 1,
            Outcome::Shown => self.shows += 1,
        }
    }
}
