//! Pieces of XML.

ghost use Rattle.std.specs.Prelude.{◌≡◌, ◌<◌, ◌/◌, ◌%◌, ◌∷◌, ◌++◌, [], OnOk, codes, map};
ghost use Rattle.std.specs.Str.{is_utf8};
ghost use Rattle.pd_text.specs.Amounts.{digit_at};
ghost use Rattle.pd_text.specs.Strings.{hex_digit};
ghost use Rattle.pd_expect.specs.Xml.{control_words, escaped, escaped_byte, has_no_character, is_held, is_no_character, piece_text};
ghost use Rattle.pd_expect.specs.Xml.{seconds_text, shown_byte, xml_of, xml_text};

use crate::named::begins;
use crate::words::push_wide;
use std::alloc::AllocError;
use std::str::from_utf8;

/// A piece of an XML document.
#[derive(Clone, Copy, Debug)]
pub(crate) enum Xml<'a> {
    /// What stands as it is.
    Markup(&'a [u8]),
    Number(u128),
    /// So many microseconds, in seconds.
    Seconds(u128),
    /// Any text, in an attribute or in an element.
    Text(&'a [u8]),
}

fn hex_digit(n: u8) -> u8
    requires { n < 16 }
    ensures { result ≡ hex_digit n }
{
    if n < 10 { b'0' + n } else { b'a' - 10 + n }
}

fn push_control(text: &mut Vec<u8>, byte: u8) -> Result<(), AllocError>
    requires { byte < 32 }
    ensures { OnOk result (text.new.items ≡ text.old.items ++ control_words byte) }
{
    text.extend_from_slice(b"\\u00")?;
    text.extend_from_slice(&[hex_digit(byte / 16), hex_digit(byte % 16)])
}

fn push_escaped_byte(text: &mut Vec<u8>, byte: u8) -> Result<(), AllocError>
    ensures { OnOk result (text.new.items ≡ text.old.items ++ escaped_byte byte) }
{
    match byte {
        b'&' => text.extend_from_slice(b"&amp;"),
        b'<' => text.extend_from_slice(b"&lt;"),
        b'>' => text.extend_from_slice(b"&gt;"),
        b'"' => text.extend_from_slice(b"&quot;"),
        b'\t' => text.extend_from_slice(b"&#9;"),
        b'\n' => text.extend_from_slice(b"&#10;"),
        b'\r' => text.extend_from_slice(b"&#13;"),
        0..=31 => push_control(text, byte),
        _ => text.extend_from_slice(&[byte]),
    }
}

/// Writes a byte of a text. One beyond ASCII is a question mark, unless all of the text can stand in XML.
fn push_shown_byte(text: &mut Vec<u8>, is_whole: bool, byte: u8) -> Result<(), AllocError>
    ensures { OnOk result (text.new.items ≡ text.old.items ++ shown_byte is_whole byte) }
{
    if byte < 128 {
        push_escaped_byte(text, byte)
    } else if is_whole {
        text.extend_from_slice(&[byte])
    } else {
        text.extend_from_slice(b"?")
    }
}

fn is_utf8(words: &[u8]) -> bool
    ensures { result ≡ is_utf8 words.now }
{
    match from_utf8(words) {
        Ok(_) => true,
        Err(_) => false,
    }
}

/// Whether a text begins with U+FFFE or U+FFFF.
fn is_no_character(text: &[u8]) -> bool
    ensures { result ≡ is_no_character text.now }
{
    begins(&[0xEF, 0xBF, 0xBE], text) || begins(&[0xEF, 0xBF, 0xBF], text)
}

/// Whether one of these stands in a text.
#[tactic(auto, unfolding(crate::specs::Xml::has_no_character))]
fn has_no_character(words: &[u8]) -> bool
    ensures { result ≡ has_no_character words.now }
{
    let mut rest = words;
    while let [_, others @ ..] = rest {
        if is_no_character(rest) {
            return true;
        }
        rest = others;
    }
    false
}

/// Whether all of a text beyond ASCII can stand in XML.
fn is_held(words: &[u8]) -> bool
    ensures { result ≡ is_held words.now }
{
    is_utf8(words) && !has_no_character(words)
}

/// Writes a text as it stands in XML.
#[tactic(auto, unfolding(crate::specs::Xml::escaped))]
fn push_escaped(text: &mut Vec<u8>, words: &[u8]) -> Result<(), AllocError>
    ensures { OnOk result (text.new.items ≡ text.old.items ++ escaped words.now) }
{
    let is_whole = is_held(words);
    for byte in words {
        push_shown_byte(text, is_whole, *byte)?;
    }
    Ok(())
}

/// The decimal digit of a number at the place of so many units.
fn digit_at(place: u128, n: u128) -> u8
    requires { 0 < place }
    ensures { result ≡ digit_at place n }
{
    b'0' + (n / place % 10) as u8
}

/// Writes a number of microseconds in seconds, with six decimal places.
#[tactic(auto, unfolding(crate::specs::Xml::seconds_text))]
fn push_seconds(text: &mut Vec<u8>, us: u128) -> Result<(), AllocError>
    ensures { OnOk result (text.new.items ≡ text.old.items ++ seconds_text us) }
{
    push_wide(text, us / 1_000_000)?;
    text.extend_from_slice(&[
        b'.',
        digit_at(100_000, us),
        digit_at(10_000, us),
        digit_at(1_000, us),
        digit_at(100, us),
        digit_at(10, us),
        digit_at(1, us),
    ])
}

fn push_piece(text: &mut Vec<u8>, piece: &Xml<'_>) -> Result<(), AllocError>
    ensures { OnOk result (text.new.items ≡ text.old.items ++ piece_text (xml_of piece.now)) }
{
    match *piece {
        Xml::Markup(bytes) => text.extend_from_slice(bytes),
        Xml::Number(n) => push_wide(text, n),
        Xml::Seconds(us) => push_seconds(text, us),
        Xml::Text(words) => push_escaped(text, words),
    }
}

/// Writes pieces, one after the other.
#[tactic(auto, unfolding(crate::specs::Xml::xml_text))]
pub(crate) fn push_xml(text: &mut Vec<u8>, pieces: &[Xml<'_>]) -> Result<(), AllocError>
    ensures { OnOk result (text.new.items ≡ text.old.items ++ xml_text (map xml_of pieces.now)) }
{
    for piece in pieces {
        push_piece(text, piece)?;
    }
    Ok(())
}
