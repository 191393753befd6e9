//! The lines of a scenario file.

ghost use Rattle.std.specs.Prelude.{◌≡◌, ◌++◌, OnOk, decimal};
ghost use Rattle.pd_save.specs.Lines.{table_head, number_line, word_line};

use itoa::Buffer;
use pd_scenario_tables::Key;
use std::alloc::AllocError;

/// Writes a number in decimal digits.
pub(crate) fn push_number(text: &mut Vec<u8>, number: u64) -> Result<(), AllocError>
    ensures { OnOk result (text.new.items ≡ text.old.items ++ decimal number) }
{
    let mut buffer = Buffer::new();
    text.extend_from_slice(buffer.format(number).as_bytes())
}

/// Writes the head of a table of a list.
#[tactic(auto, unfolding(crate::specs::Lines::table_head))]
pub(crate) fn push_head(text: &mut Vec<u8>, key: Key) -> Result<(), AllocError>
    ensures { OnOk result (text.new.items ≡ text.old.items ++ table_head key) }
{
    text.extend_from_slice(b"\n[[")?;
    text.extend_from_slice(key.text().as_bytes())?;
    text.extend_from_slice(b"]]\n")
}

/// Writes a key and its number.
#[tactic(auto, unfolding(crate::specs::Lines::number_line))]
pub(crate) fn push_number_line(text: &mut Vec<u8>, key: Key, number: u64) -> Result<(), AllocError>
    ensures { OnOk result (text.new.items ≡ text.old.items ++ number_line key number) }
{
    text.extend_from_slice(key.text().as_bytes())?;
    text.extend_from_slice(b" = ")?;
    push_number(text, number)?;
    text.extend_from_slice(b"\n")
}

/// Writes a key and its word.
#[tactic(auto, unfolding(crate::specs::Lines::word_line))]
pub(crate) fn push_word_line(text: &mut Vec<u8>, key: Key, word: &str) -> Result<(), AllocError>
    ensures { OnOk result (text.new.items ≡ text.old.items ++ word_line key word.now) }
{
    text.extend_from_slice(key.text().as_bytes())?;
    text.extend_from_slice(b" = \"")?;
    text.extend_from_slice(word.as_bytes())?;
    text.extend_from_slice(b"\"\n")
}
