//! The parts of an element.

ghost use Rattle.std.specs.Prelude.{◌≡◌, ◌∷◌, ◌++◌, [], OnOk, codes, decimal};
ghost use Rattle.std.specs.List.{flat_map};
ghost use Rattle.pd_chart.specs.Elements.{attribute_text, escaped, escaped_byte, inside_text};
ghost use Rattle.pd_chart.specs.Shapes.{named, place, size, title};

use itoa::Buffer;
use std::alloc::AllocError;

fn push_escaped_byte(text: &mut Vec<u8>, byte: u8) -> Result<(), AllocError>
    ensures { OnOk result (text.new.items ≡ text.old.items ++ escaped_byte byte) }
{
    match byte {
        b'&' => text.extend_from_slice(b"&amp;"),
        b'<' => text.extend_from_slice(b"&lt;"),
        b'>' => text.extend_from_slice(b"&gt;"),
        b'"' => text.extend_from_slice(b"&quot;"),
        b' '..=b'~' => text.extend_from_slice(&[byte]),
        _ => text.extend_from_slice(b"?"),
    }
}

/// Writes words so that none of their bytes has a meaning in XML.
///
/// # Errors
/// There is no memory for it; some of it may stand in the text.
pub fn push_escaped(text: &mut Vec<u8>, words: &[u8]) -> Result<(), AllocError>
    ensures { OnOk result (text.new.items ≡ text.old.items ++ escaped words.now) }
{
    for byte in words {
        push_escaped_byte(text, *byte)?;
    }
    Ok(())
}

/// Writes an attribute.
///
/// # Errors
/// There is no memory for it; some of it may stand in the text.
#[tactic(auto, unfolding(crate::specs::Elements::attribute_text))]
pub fn push_attribute(text: &mut Vec<u8>, name: &[u8], value: &[u8]) -> Result<(), AllocError>
    ensures { OnOk result (text.new.items ≡ text.old.items ++ attribute_text (named name.now value.now)) }
{
    text.push(b' ')?;
    text.extend_from_slice(name)?;
    text.extend_from_slice(b"=\"")?;
    push_escaped(text, value)?;
    text.extend_from_slice(b"\"")
}

fn push_number(text: &mut Vec<u8>, name: &[u8], number: u64) -> Result<(), AllocError>
    ensures { OnOk result (text.new.items ≡ text.old.items ++ attribute_text (named name.now (decimal number))) }
{
    let mut buffer = Buffer::new();
    push_attribute(text, name, buffer.format(number).as_bytes())
}

pub(crate) fn push_place(text: &mut Vec<u8>, x: u64, y: u64) -> Result<(), AllocError>
    ensures { OnOk result (text.new.items ≡ text.old.items ++ flat_map attribute_text (place x y)) }
{
    push_number(text, b"x", x)?;
    push_number(text, b"y", y)
}

pub(crate) fn push_size(text: &mut Vec<u8>, width: u64, height: u64) -> Result<(), AllocError>
    ensures { OnOk result (text.new.items ≡ text.old.items ++ flat_map attribute_text (size width height)) }
{
    push_number(text, b"width", width)?;
    push_number(text, b"height", height)
}

/// Opens an element of a class.
pub(crate) fn push_open(text: &mut Vec<u8>, name: &[u8], class: &[u8]) -> Result<(), AllocError>
    ensures { OnOk result (text.new.items
        ≡ text.old.items ++ (60 ∷ (name.now ++ attribute_text (named (codes "class") class.now)))) }
{
    text.push(b'<')?;
    text.extend_from_slice(name)?;
    push_attribute(text, b"class", class)
}

/// Writes what a browser tells of the element, and closes it.
#[tactic(auto, unfolding(crate::specs::Elements::inside_text))]
pub(crate) fn push_title(text: &mut Vec<u8>, words: &[u8]) -> Result<(), AllocError>
    ensures { OnOk result (text.new.items ≡ text.old.items ++ (62 ∷ flat_map inside_text (title words.now))) }
{
    if words.is_empty() {
        return text.extend_from_slice(b">");
    }
    text.extend_from_slice(b"><title>")?;
    push_escaped(text, words)?;
    text.extend_from_slice(b"</title>")
}

pub(crate) fn push_close(text: &mut Vec<u8>, name: &[u8]) -> Result<(), AllocError>
    ensures { OnOk result (text.new.items ≡ text.old.items ++ (60 ∷ 47 ∷ (name.now ++ (62 ∷ 10 ∷ [])))) }
{
    text.extend_from_slice(b"</")?;
    text.extend_from_slice(name)?;
    text.extend_from_slice(b">\n")
}
