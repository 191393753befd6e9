//! Pages in which a scenario and a script stand.

ghost use Rattle.std.specs.Prelude.{◌≡◌, ◌++◌, IfOk, OnOk, option_map};
ghost use Rattle.pd_text.specs.Pages.{IsFilled, given_object, place, opening, unclosed, unclosed_byte};

use crate::string::push_string;
use memchr::memmem;
use std::alloc::{AllocError, Global};

/// The beginning of the data block into which the texts are put.
const OPENING: &[u8] = b"<script type=\"application/json\" id=\"given\">";

/// That block, as long as it is empty.
const PLACE: &[u8] = b"<script type=\"application/json\" id=\"given\"></script>";

/// Writes the object that is put into a page.
fn push_object(
    text: &mut Vec<u8>,
    name: &[u8],
    scenario: &[u8],
    script: &[u8],
) -> Result<(), AllocError>
    ensures { OnOk result (text.new.items ≡ text.old.items ++ given_object name.now scenario.now script.now) }
{
    text.extend_from_slice(b"{\"name\":")?;
    push_string(text, name)?;
    text.extend_from_slice(b",\"scenario\":")?;
    push_string(text, scenario)?;
    text.extend_from_slice(b",\"script\":")?;
    push_string(text, script)?;
    text.extend_from_slice(b"}")
}

fn push_unclosed_byte(text: &mut Vec<u8>, byte: u8) -> Result<(), AllocError>
    ensures { OnOk result (text.new.items ≡ text.old.items ++ unclosed_byte byte) }
{
    if byte == b'<' {
        text.extend_from_slice(b"\\u003c")
    } else {
        text.extend_from_slice(&[byte])
    }
}

/// Writes JSON in which no element of HTML can begin or end.
#[tactic(auto, unfolding(crate::specs::Pages::unclosed))]
fn push_unclosed(text: &mut Vec<u8>, json: &[u8]) -> Result<(), AllocError>
    ensures { OnOk result (text.new.items ≡ text.old.items ++ unclosed json.now) }
{
    for byte in json {
        push_unclosed_byte(text, *byte)?;
    }
    Ok(())
}

/// A page with a scenario and a script of a name in its place for them: an object of these three texts, in which no `<` stands. A
/// page that has no such place is none.
///
/// # Errors
/// There is no memory.
pub fn fill_page(
    alloc: Global,
    page: &[u8],
    name: &[u8],
    scenario: &[u8],
    script: &[u8],
) -> Result<Option<Vec<u8>>, AllocError>
    ensures { IfOk result (λ filled. IsFilled page.now (unclosed (given_object name.now scenario.now script.now))
        (option_map (λ bytes. bytes.items) filled)) }
{
    let Some(at) = memmem::find(page, PLACE) else {
        return Ok(None);
    };
    let (front, behind) = page.split_at(at + OPENING.len());
    let mut object = Vec::new(alloc);
    push_object(&mut object, name, scenario, script)?;
    let mut filled = Vec::new(alloc);
    filled.extend_from_slice(front)?;
    push_unclosed(&mut filled, object.as_slice())?;
    filled.extend_from_slice(behind)?;
    Ok(Some(filled))
}
