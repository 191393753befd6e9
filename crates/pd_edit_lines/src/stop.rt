//! Where a line stops to be one of an edit script.

ghost use Rattle.std.specs.Prelude.{◌≡◌};
ghost use Rattle.pd_edit_lines.specs.Table.{rows};
ghost use Rattle.pd_edit_lines.specs.Words.{words};
ghost use Rattle.pd_edit_lines.specs.Stops.{next_front, stop_from};
ghost use Rattle.pd_edit_lines.specs.declared.rows.Front.TheVariants as fronts;

use crate::rows::rows;
use crate::{Front, Row, next};

/// Where a line stops: the words before it begin a line that goes on by one of these rows, and the first word of what is
/// left, if there is one, fits none of them.
#[derive(Clone, Copy)]
pub struct Stop<'a> {
    pub front: Front,
    pub rest: &'a [u8],
}

impl<'a> Stop<'a> {
    /// What may stand there: each of these, and nothing else.
    pub fn rows(&self) -> &'static [Row]
        ensures { result.now ≡ rows self.now.front }
    {
        rows(self.front)
    }
}

/// Where a line stops to be one of an edit script.
pub fn stop_of(line: &[u8]) -> Stop<'_>
    ensures { (result.front, words result.rest.now) ≡ stop_from fronts.Start (words line.now) }
{
    let mut front = Front::Start;
    let mut rest = line;
    while let Some((word, others)) = next(rest) {
        let Some(to) = next_front(front, word) else {
            return Stop { front, rest };
        };
        front = to;
        rest = others;
    }
    Stop { front, rest }
}

/// What stands at the beginning of a line after one more word; `None` where the word can't stand there.
fn next_front(front: Front, word: &[u8]) -> Option<Front>
    ensures { result ≡ next_front front word.now }
{
    rows(front)
        .iter()
        .find(|row| row.slot.fits(word))
        .map(|row| row.to)
}
