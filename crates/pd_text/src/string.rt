//! Texts as JSON strings.

ghost use Rattle.std.specs.Prelude.{◌≡◌, ◌<◌, ◌/◌, ◌%◌, ◌∷◌, ◌++◌, [], OnOk, codes};
ghost use Rattle.std.specs.List.{flat_map};
ghost use Rattle.std.specs.Str.{is_utf8};
ghost use Rattle.pd_text.specs.Strings.{ascii, ascii_byte, escaped, escaped_byte, hex_digit, shown, string_text};

use std::alloc::AllocError;
use std::str::from_utf8;

fn hex_digit(n: u8) -> u8
    requires { n < 16 }
    ensures { result ≡ hex_digit n }
{
    if n < 10 { b'0' + n } else { b'a' - 10 + n }
}

fn push_control(text: &mut Vec<u8>, byte: u8) -> Result<(), AllocError>
    requires { byte < 32 }
    ensures { OnOk result (text.new.items ≡ text.old.items ++ (codes "\\u00" ++ (hex_digit (byte / 16) ∷ hex_digit (byte % 16) ∷ []))) }
{
    text.extend_from_slice(b"\\u00")?;
    text.extend_from_slice(&[hex_digit(byte / 16), hex_digit(byte % 16)])
}

fn push_escaped_byte(text: &mut Vec<u8>, byte: u8) -> Result<(), AllocError>
    ensures { OnOk result (text.new.items ≡ text.old.items ++ escaped_byte byte) }
{
    match byte {
        b'"' => text.extend_from_slice(b"\\\""),
        b'\\' => text.extend_from_slice(b"\\\\"),
        0..=31 => push_control(text, byte),
        _ => text.extend_from_slice(&[byte]),
    }
}

fn push_escaped(text: &mut Vec<u8>, words: &[u8]) -> Result<(), AllocError>
    ensures { OnOk result (text.new.items ≡ text.old.items ++ escaped words.now) }
{
    for byte in words {
        push_escaped_byte(text, *byte)?;
    }
    Ok(())
}

fn push_ascii_byte(text: &mut Vec<u8>, byte: u8) -> Result<(), AllocError>
    ensures { OnOk result (text.new.items ≡ text.old.items ++ ascii_byte byte) }
{
    if byte < 128 {
        push_escaped_byte(text, byte)
    } else {
        text.extend_from_slice(b"?")
    }
}

/// Writes a text with a question mark for each byte beyond ASCII.
fn push_ascii(text: &mut Vec<u8>, words: &[u8]) -> Result<(), AllocError>
    ensures { OnOk result (text.new.items ≡ text.old.items ++ ascii words.now) }
{
    for byte in words {
        push_ascii_byte(text, *byte)?;
    }
    Ok(())
}

fn is_utf8(words: &[u8]) -> bool
    ensures { result ≡ is_utf8 words.now }
{
    match from_utf8(words) {
        Ok(_) => true,
        Err(_) => false,
    }
}

/// Writes a text, in ASCII alone where it is no UTF-8: all that is written is UTF-8.
fn push_shown(text: &mut Vec<u8>, words: &[u8]) -> Result<(), AllocError>
    ensures { OnOk result (text.new.items ≡ text.old.items ++ shown words.now) }
{
    if is_utf8(words) {
        push_escaped(text, words)
    } else {
        push_ascii(text, words)
    }
}

/// Writes a text as a JSON string: in quotes, where quotes and backslashes stand behind a backslash, and control characters as
/// their numbers. In a text that is no UTF-8, a byte beyond ASCII is a question mark.
///
/// # Errors
/// There is no memory; some of it may stand in the text.
#[tactic(auto, unfolding(crate::specs::Strings::string_text))]
pub fn push_string(text: &mut Vec<u8>, words: &[u8]) -> Result<(), AllocError>
    ensures { OnOk result (text.new.items ≡ text.old.items ++ string_text words.now) }
{
    text.push(b'"')?;
    push_shown(text, words)?;
    text.extend_from_slice(b"\"")
}
