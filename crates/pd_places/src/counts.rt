//! Refusal 11: more tables, or fewer, than there may be.

ghost use Rattle.std.specs.Prelude.{◌≡◌, ◌++◌, OnOk};
ghost use Rattle.pd_misfits.specs.Lines.{line};
ghost use Rattle.pd_places.specs.Counts.{count_sentence, count_part};

use pd_misfits::{Spot, push_number};
use std::alloc::{AllocError, Global};

/// Writes how many there are, and how many there may be.
#[tactic(auto, unfolding(crate::specs::Counts::count_sentence))]
fn push_count_sentence(
    text: &mut Vec<u8>,
    noun: &str,
    low: u64,
    high: u64,
    count: u64,
) -> Result<(), AllocError>
    ensures { OnOk result (text.new.items ≡ text.old.items ++ count_sentence noun.now low high count) }
{
    text.extend_from_slice(b"there are ")?;
    push_number(text, count)?;
    text.push(b' ')?;
    text.extend_from_slice(noun.as_bytes())?;
    text.extend_from_slice(b", not ")?;
    push_number(text, low)?;
    text.extend_from_slice(b" to ")?;
    push_number(text, high)
}

/// Writes a line where there are too many, or too few.
pub fn push_count(
    alloc: Global,
    text: &mut Vec<u8>,
    spot: &Spot<'_>,
    noun: &str,
    low: u64,
    high: u64,
    count: u64,
) -> Result<(), AllocError>
    ensures { OnOk result (text.new.items ≡ text.old.items ++ count_part spot.now noun.now low high count) }
{
    if count >= low && count <= high {
        return Ok(());
    }
    let mut sentence = Vec::new(alloc);
    push_count_sentence(&mut sentence, noun, low, high, count)?;
    spot.push_line(alloc, text, b"", sentence.as_slice(), b"")
}
