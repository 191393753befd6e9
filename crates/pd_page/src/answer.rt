//! What a call answers.

ghost use Rattle.std.specs.Prelude.{◌≡◌, []};
ghost use Rattle.pd_page.specs.Answers.{IsHanded, put};

use crate::Ending;
use pd_device::Output;
use std::alloc::Global;

/// How a call ended, and the text of its answer.
#[derive(Drop)]
pub(crate) struct Answer {
    pub ending: Ending,
    pub text: Vec<u8>,
}

impl Answer {
    /// No answer.
    pub fn none(alloc: Global, ending: Ending) -> Answer
        ensures ending { result.ending ≡ ending }
        ensures text { result.text.items ≡ [] }
    {
        Answer {
            ending,
            text: Vec::new(alloc),
        }
    }

    /// Puts what has room of the text into a room, and tells how long the text is and how the call ended.
    pub fn hand_over(&self, room: &mut [u8], len: &mut u64) -> u32
        ensures { IsHanded self.now result len.new room.old room.new }
    {
        put(self.text.as_slice(), room);
        *len = self.text.len() as u64;
        self.ending.number()
    }
}

/// Puts the first bytes of a text into a room, as many as have room.
fn put(text: &[u8], room: &mut [u8])
    ensures { room.new ≡ put text.now room.old }
{
    let count = text.len().min(room.len());
    room[..count].copy_from_slice(&text[..count]);
}

/// What takes all that is written to it, where there is memory.
pub(crate) fn no_output(alloc: Global) -> Output<Vec<u8>>
    ensures { result.writer.items ≡ [] }
{
    Output {
        writer: Vec::new(alloc),
        failures: 0,
    }
}
