//! Pieces and their line, in either form.

ghost use Rattle.std.specs.Prelude.{◌≡◌, ◌++◌, OnOk, map};
ghost use Rattle.pd_text.specs.Pieces.{piece_of};
ghost use Rattle.pd_text.specs.Texts.{line_begin, line_end, text_of, text_of_all};

use crate::members::push_member;
use crate::words::push_words;
use crate::{Form, Piece};
use std::alloc::AllocError;

/// Writes what a piece says.
fn push_piece(text: &mut Vec<u8>, form: Form, piece: &Piece<'_>) -> Result<(), AllocError>
    ensures { OnOk result (text.new.items ≡ text.old.items ++ text_of form (piece_of piece.now)) }
{
    match form {
        Form::Words => push_words(text, piece),
        Form::Json => push_member(text, piece),
    }
}

/// Writes what pieces say, one after the other.
///
/// # Errors
/// There is no memory for it; some of it may stand in the text.
#[tactic(auto, unfolding(crate::specs::Texts::text_of_all))]
pub fn push_pieces(text: &mut Vec<u8>, form: Form, pieces: &[Piece<'_>]) -> Result<(), AllocError>
    ensures { OnOk result (text.new.items ≡ text.old.items ++ text_of_all form (map piece_of pieces.now)) }
{
    for piece in pieces {
        push_piece(text, form, piece)?;
    }
    Ok(())
}

/// Writes what stands before a telling on its line.
///
/// # Errors
/// There is no memory for it.
pub fn begin_line(text: &mut Vec<u8>, form: Form) -> Result<(), AllocError>
    ensures { OnOk result (text.new.items ≡ text.old.items ++ line_begin form) }
{
    match form {
        Form::Words => Ok(()),
        Form::Json => text.extend_from_slice(b"{"),
    }
}

/// Writes what stands behind a telling on its line, with the line's end.
///
/// # Errors
/// There is no memory for it; some of it may stand in the text.
pub fn end_line(text: &mut Vec<u8>, form: Form) -> Result<(), AllocError>
    ensures { OnOk result (text.new.items ≡ text.old.items ++ line_end form) }
{
    match form {
        Form::Words => text.extend_from_slice(b"\n"),
        Form::Json => text.extend_from_slice(b"}\n"),
    }
}
