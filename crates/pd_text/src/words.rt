//! What a piece says in a line of words.

ghost use Rattle.std.specs.Prelude.{◌≡◌, ◌++◌, OnOk, map};
ghost use Rattle.std.specs.List.{flat_map};
ghost use Rattle.pd_text.specs.Amounts.{amount};
ghost use Rattle.pd_text.specs.Pieces.{list_name_of, piece_of};
ghost use Rattle.pd_text.specs.Texts.{list_words, text_words, whole_words, words_of};

use crate::amounts::{push_amount, push_signed};
use crate::{ListName, Piece, Unit};
use std::alloc::AllocError;

/// Writes the words of the names that a list has.
fn push_list_words(text: &mut Vec<u8>, names: &[ListName<'_>]) -> Result<(), AllocError>
    ensures { OnOk result (text.new.items ≡ text.old.items ++ flat_map list_words (map list_name_of names.now)) }
{
    for name in names {
        if name.is_listed {
            text.extend_from_slice(name.words)?;
        }
    }
    Ok(())
}

/// Writes a number behind the words before it.
fn push_line_number(
    text: &mut Vec<u8>,
    words: &[u8],
    unit: Unit,
    number: u64,
) -> Result<(), AllocError>
    ensures { OnOk result (text.new.items ≡ text.old.items ++ (words.now ++ amount unit number)) }
{
    text.extend_from_slice(words)?;
    push_amount(text, unit, number)
}

/// Writes a text behind the words before it, where it isn't empty.
fn push_text(text: &mut Vec<u8>, words: &[u8], told: &[u8]) -> Result<(), AllocError>
    ensures { OnOk result (text.new.items ≡ text.old.items ++ text_words words.now told.now) }
{
    if told.is_empty() {
        return Ok(());
    }
    text.extend_from_slice(words)?;
    text.extend_from_slice(told)
}

/// Writes a whole number behind the words before it, where there is one.
fn push_whole(text: &mut Vec<u8>, words: &[u8], number: Option<i64>) -> Result<(), AllocError>
    ensures { OnOk result (text.new.items ≡ text.old.items ++ whole_words words.now number) }
{
    let Some(number) = number else {
        return Ok(());
    };
    text.extend_from_slice(words)?;
    push_signed(text, number)
}

/// Writes what a piece says in a line of words.
pub(crate) fn push_words(text: &mut Vec<u8>, piece: &Piece<'_>) -> Result<(), AllocError>
    ensures { OnOk result (text.new.items ≡ text.old.items ++ words_of (piece_of piece.now)) }
{
    match piece {
        Piece::Number(words, _, unit, number) => push_line_number(text, words, *unit, *number),
        Piece::Name(words, _, _) => text.extend_from_slice(words),
        Piece::File(name) => text.extend_from_slice(name),
        Piece::Flag(if_so, if_not, _, holds) => {
            text.extend_from_slice(if *holds { if_so } else { if_not })
        }
        Piece::Names(_, names) => push_list_words(text, names),
        Piece::Text(words, _, told) => push_text(text, words, told),
        Piece::Whole(words, _, number) => push_whole(text, words, *number),
        Piece::LineWords(words) => text.extend_from_slice(words),
        Piece::LineNumber(words, unit, number) => push_line_number(text, words, *unit, *number),
        Piece::Kind(_)
        | Piece::MemberNumber(_, _)
        | Piece::MemberText(_, _)
        | Piece::MemberNull(_) => Ok(()),
    }
}
