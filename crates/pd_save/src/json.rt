//! Pieces of a JSON text.

ghost use Rattle.std.specs.Prelude.{◌≡◌, ◌++◌, OnOk, map};
ghost use Rattle.std.specs.List.{flat_map};
ghost use Rattle.pd_save.specs.Json.{quoted, next_quoted, quoted_words, next_decimal, decimals};

use crate::lines::push_number;
use std::alloc::AllocError;

/// Writes a word in quotation marks.
#[tactic(auto, unfolding(crate::specs::Json::quoted))]
pub(crate) fn push_quoted(text: &mut Vec<u8>, word: &str) -> Result<(), AllocError>
    ensures { OnOk result (text.new.items ≡ text.old.items ++ quoted word.now) }
{
    text.extend_from_slice(b"\"")?;
    text.extend_from_slice(word.as_bytes())?;
    text.extend_from_slice(b"\"")
}

/// Writes a word behind a comma.
#[tactic(auto, unfolding(crate::specs::Json::next_quoted))]
pub(crate) fn push_next_quoted(text: &mut Vec<u8>, word: &str) -> Result<(), AllocError>
    ensures { OnOk result (text.new.items ≡ text.old.items ++ next_quoted word.now) }
{
    text.extend_from_slice(b", ")?;
    push_quoted(text, word)
}

fn push_other_words(text: &mut Vec<u8>, words: &[&str]) -> Result<(), AllocError>
    ensures { OnOk result (text.new.items ≡ text.old.items ++ flat_map next_quoted (map (λ x. x.now) words.now)) }
{
    let [word, others @ ..] = words else {
        return Ok(());
    };
    push_next_quoted(text, word)?;
    push_other_words(text, others)
}

/// Writes words with commas between.
pub(crate) fn push_words(text: &mut Vec<u8>, words: &[&str]) -> Result<(), AllocError>
    ensures { OnOk result (text.new.items ≡ text.old.items ++ quoted_words (map (λ x. x.now) words.now)) }
{
    let [word, others @ ..] = words else {
        return Ok(());
    };
    push_quoted(text, word)?;
    push_other_words(text, others)
}

#[tactic(auto, unfolding(crate::specs::Json::next_decimal))]
fn push_next_decimal(text: &mut Vec<u8>, number: u64) -> Result<(), AllocError>
    ensures { OnOk result (text.new.items ≡ text.old.items ++ next_decimal number) }
{
    text.extend_from_slice(b", ")?;
    push_number(text, number)
}

fn push_other_decimals(text: &mut Vec<u8>, numbers: &[u64]) -> Result<(), AllocError>
    ensures { OnOk result (text.new.items ≡ text.old.items ++ flat_map next_decimal numbers.now) }
{
    for number in numbers {
        push_next_decimal(text, *number)?;
    }
    Ok(())
}

/// Writes numbers with commas between.
pub(crate) fn push_decimals(text: &mut Vec<u8>, numbers: &[u64]) -> Result<(), AllocError>
    ensures { OnOk result (text.new.items ≡ text.old.items ++ decimals numbers.now) }
{
    let [number, others @ ..] = numbers else {
        return Ok(());
    };
    push_number(text, *number)?;
    push_other_decimals(text, others)
}
