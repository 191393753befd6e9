//! The first lines of a text, and that there are more.

ghost use Rattle.std.specs.Prelude.{◌≡◌, ◌<◌, ◌++◌, OnOk, IfOk};
ghost use Rattle.pd_misfits.specs.Texts.{ends_line};
ghost use Rattle.pd_places.specs.Places.{IsCut, IsShort, more_line};

use pd_text::{Front, Piece};
use std::alloc::{AllocError, Global};

/// How many bytes the first lines of a text have, at most so many.
fn cut_len(text: &[u8], most: u64) -> usize
    requires { 0 < most }
    ensures { IsCut most text.now result }
{
    let mut count = 0;
    for (i, byte) in text.iter().enumerate() {
        if *byte == b'\n' {
            count += 1;
            if count == most {
                return i + 1;
            }
        }
    }
    text.len()
}

/// Writes that there are more places.
#[tactic(auto, unfolding(crate::specs::Places::more_line))]
fn push_more_line(text: &mut Vec<u8>, file: &Front) -> Result<(), AllocError>
    ensures { OnOk result (text.new.items ≡ text.old.items ++ more_line file.now) }
{
    file.push_line(text, &[Piece::Text(b": ", b"sentence", b"more places")])
}

/// The first lines of a text, at most so many, and a line behind the front of a file where there are more.
pub fn first_lines(
    alloc: Global,
    file: &Front,
    text: &[u8],
    most: u64,
) -> Result<Vec<u8>, AllocError>
    requires { 0 < most }
    ensures { IfOk result (λ v. IsShort most file.now text.now v.items) }
{
    let cut = cut_len(text, most);
    let mut said = Vec::new(alloc);
    said.extend_from_slice(&text[..cut])?;
    if cut < text.len() {
        push_more_line(&mut said, file)?;
    }
    Ok(said)
}
