//! What a step leaves, in one block of memory.

ghost use Rattle.std.specs.Prelude.{◌≡◌, None};

use crate::timed_port::TimedPort;
use pd_objects::Answer;
use pd_port::Entry;

/// A port as a step has left it, with the answer to what it had asked, and what the step left to be read. They stand in one block of
/// memory, since all of them are kept, and let go, together.
#[derive(Drop)]
pub(crate) struct Stepped {
    // What is looked at of most steps comes first, beside the count of owners: what fell due, and what was asked and answered.
    pub entry: Entry,
    pub answer: Option<Answer>,
    pub port: TimedPort,
}

impl Stepped {
    /// A port that has made no step: it has left nothing, and its entry is never shown.
    pub(crate) fn none(port: TimedPort) -> Stepped
        ensures port { result.port ≡ port }
        ensures answer { result.answer ≡ None }
    {
        Stepped {
            port,
            answer: None,
            entry: Entry::new(),
        }
    }
}
