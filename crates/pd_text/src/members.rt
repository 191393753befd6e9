//! What a piece says in a JSON object.

ghost use Rattle.std.specs.Prelude.{◌≡◌, ◌∷◌, ◌++◌, OnOk, decimal, map};
ghost use Rattle.std.specs.List.{flat_map};
ghost use Rattle.pd_text.specs.Pieces.{list_name_of, piece_of};
ghost use Rattle.pd_text.specs.Texts.{key_text, listed, member, member_of, names_joined, names_json, quoted, text_member, truth};
ghost use Rattle.pd_text.specs.Texts.{whole_member};

use crate::amounts::{push_number, push_signed};
use crate::string::push_string;
use crate::{ListName, Piece};
use std::alloc::AllocError;

/// Writes a name between quotation marks.
#[tactic(auto, unfolding(crate::specs::Texts::quoted))]
fn push_quoted(text: &mut Vec<u8>, name: &[u8]) -> Result<(), AllocError>
    ensures { OnOk result (text.new.items ≡ text.old.items ++ quoted name.now) }
{
    text.extend_from_slice(b"\"")?;
    text.extend_from_slice(name)?;
    text.extend_from_slice(b"\"")
}

/// Writes the key of a member that isn't the first.
#[tactic(auto, unfolding(crate::specs::Texts::key_text))]
fn push_key(text: &mut Vec<u8>, key: &[u8]) -> Result<(), AllocError>
    ensures { OnOk result (text.new.items ≡ text.old.items ++ key_text key.now) }
{
    text.extend_from_slice(b",\"")?;
    text.extend_from_slice(key)?;
    text.extend_from_slice(b"\":")
}

/// Writes a member whose value is this text.
fn push_value_member(text: &mut Vec<u8>, key: &[u8], value: &[u8]) -> Result<(), AllocError>
    ensures { OnOk result (text.new.items ≡ text.old.items ++ member key.now value.now) }
{
    push_key(text, key)?;
    text.extend_from_slice(value)
}

/// Writes a member whose value is a number.
fn push_number_member(text: &mut Vec<u8>, key: &[u8], number: u64) -> Result<(), AllocError>
    ensures { OnOk result (text.new.items ≡ text.old.items ++ member key.now (decimal number)) }
{
    push_key(text, key)?;
    push_number(text, number)
}

/// Writes a member whose value is a name.
fn push_name_member(text: &mut Vec<u8>, key: &[u8], name: &[u8]) -> Result<(), AllocError>
    ensures { OnOk result (text.new.items ≡ text.old.items ++ member key.now (quoted name.now)) }
{
    push_key(text, key)?;
    push_quoted(text, name)
}

/// `true` or `false`.
fn truth(holds: bool) -> &'static [u8]
    ensures { result.now ≡ truth holds }
{
    if holds { b"true" } else { b"false" }
}

/// Writes the names that a list has, each behind a comma.
fn push_next_names(text: &mut Vec<u8>, names: &[ListName<'_>]) -> Result<(), AllocError>
    ensures { OnOk result (text.new.items ≡ text.old.items ++ flat_map (λ name. 44 ∷ name) (listed (map list_name_of names.now))) }
{
    let [name, rest @ ..] = names else {
        return Ok(());
    };
    if name.is_listed {
        text.extend_from_slice(b",")?;
        push_quoted(text, name.name)?;
    }
    push_next_names(text, rest)
}

/// Writes the names that a list has, with commas between them.
fn push_names(text: &mut Vec<u8>, names: &[ListName<'_>]) -> Result<(), AllocError>
    ensures { OnOk result (text.new.items ≡ text.old.items ++ names_joined (map list_name_of names.now)) }
{
    let [name, rest @ ..] = names else {
        return Ok(());
    };
    if !name.is_listed {
        return push_names(text, rest);
    }
    push_quoted(text, name.name)?;
    push_next_names(text, rest)
}

/// Writes a member whose value is a list of names.
fn push_names_member(
    text: &mut Vec<u8>,
    key: &[u8],
    names: &[ListName<'_>],
) -> Result<(), AllocError>
    ensures { OnOk result (text.new.items ≡ text.old.items ++ member key.now (names_json (map list_name_of names.now))) }
{
    push_key(text, key)?;
    text.extend_from_slice(b"[")?;
    push_names(text, names)?;
    text.extend_from_slice(b"]")
}

/// Writes a member whose value is a text, where that isn't empty.
fn push_text_member(text: &mut Vec<u8>, key: &[u8], told: &[u8]) -> Result<(), AllocError>
    ensures { OnOk result (text.new.items ≡ text.old.items ++ text_member key.now told.now) }
{
    if told.is_empty() {
        return Ok(());
    }
    push_key(text, key)?;
    push_string(text, told)
}

/// Writes a member whose value is a whole number, where there is one.
fn push_whole_member(text: &mut Vec<u8>, key: &[u8], number: Option<i64>) -> Result<(), AllocError>
    ensures { OnOk result (text.new.items ≡ text.old.items ++ whole_member key.now number) }
{
    let Some(number) = number else {
        return Ok(());
    };
    push_key(text, key)?;
    push_signed(text, number)
}

/// Writes what a piece says in a JSON object.
pub(crate) fn push_member(text: &mut Vec<u8>, piece: &Piece<'_>) -> Result<(), AllocError>
    ensures { OnOk result (text.new.items ≡ text.old.items ++ member_of (piece_of piece.now)) }
{
    match piece {
        Piece::Kind(name) => {
            text.extend_from_slice(b"\"kind\":")?;
            push_quoted(text, name)
        }
        Piece::File(name) => {
            text.extend_from_slice(b"\"file\":")?;
            push_string(text, name)
        }
        Piece::Number(_, key, _, number) => push_number_member(text, key, *number),
        Piece::Name(_, key, name) => push_name_member(text, key, name),
        Piece::Flag(_, _, key, holds) => push_value_member(text, key, truth(*holds)),
        Piece::Names(key, names) => push_names_member(text, key, names),
        Piece::Text(_, key, told) => push_text_member(text, key, told),
        Piece::Whole(_, key, number) => push_whole_member(text, key, *number),
        Piece::MemberText(key, told) => push_text_member(text, key, told),
        Piece::MemberNumber(key, number) => push_number_member(text, key, *number),
        Piece::MemberNull(key) => push_value_member(text, key, b"null"),
        Piece::LineWords(_) | Piece::LineNumber(_, _, _) => Ok(()),
    }
}
