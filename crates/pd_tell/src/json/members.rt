//! A key and its value, behind a comma.

ghost use Rattle.std.specs.Prelude.{◌≡◌, ◌++◌, OnOk};
ghost use Rattle.pd_tell.specs.Members.{number_member, text_member};

use crate::push_number;
use std::alloc::AllocError;

/// Writes a number behind its key, which is of letters, digits and `_`.
///
/// # Errors
/// There is no memory for it; some of it may stand in the text.
#[tactic(auto, unfolding(crate::specs::Members::number_member))]
pub fn push_number_member(text: &mut Vec<u8>, key: &[u8], number: u64) -> Result<(), AllocError>
    ensures { OnOk result (text.new.items ≡ text.old.items ++ number_member key.now number) }
{
    text.extend_from_slice(b",\"")?;
    text.extend_from_slice(key)?;
    text.extend_from_slice(b"\":")?;
    push_number(text, number)
}

/// Writes a text behind its key; neither has a character for which JSON has another spelling.
///
/// # Errors
/// There is no memory for it; some of it may stand in the text.
#[tactic(auto, unfolding(crate::specs::Members::text_member))]
pub fn push_text_member(text: &mut Vec<u8>, key: &[u8], value: &[u8]) -> Result<(), AllocError>
    ensures { OnOk result (text.new.items ≡ text.old.items ++ text_member key.now value.now) }
{
    text.extend_from_slice(b",\"")?;
    text.extend_from_slice(key)?;
    text.extend_from_slice(b"\":\"")?;
    text.extend_from_slice(value)?;
    text.extend_from_slice(b"\"")
}
