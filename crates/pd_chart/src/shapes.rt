//! The elements that a picture is made of. Places and sizes are in tenths of a pixel.

ghost use Rattle.std.specs.Prelude.{◌≡◌, ◌∷◌, ◌++◌, [], OnOk, codes};
ghost use Rattle.pd_chart.specs.Elements.{element_text, inside_text, attribute_text};
ghost use Rattle.pd_chart.specs.Shapes.{box_of, path_of, style_of, words_at};

use crate::elements::{
    push_attribute, push_close, push_escaped, push_open, push_place, push_size, push_title,
};
use std::alloc::AllocError;

/// A rectangle's place and size, in tenths of a pixel.
#[derive(Clone, Copy, Debug)]
pub struct Area {
    pub x: u64,
    pub y: u64,
    pub width: u64,
    pub height: u64,
}

/// Draws a rectangle of a class, of which a browser tells the words, if there are any.
///
/// # Errors
/// There is no memory for it; some of it may stand in the text.
pub fn push_box(
    text: &mut Vec<u8>,
    class: &[u8],
    area: Area,
    words: &[u8],
) -> Result<(), AllocError>
    ensures { OnOk result (text.new.items ≡ text.old.items ++ element_text (box_of class.now area words.now)) }
{
    push_open(text, b"rect", class)?;
    push_place(text, area.x, area.y)?;
    push_size(text, area.width, area.height)?;
    push_title(text, words)?;
    push_close(text, b"rect")
}

/// Draws words of a class, from a place on.
///
/// # Errors
/// There is no memory for it; some of it may stand in the text.
pub fn push_words(
    text: &mut Vec<u8>,
    class: &[u8],
    x: u64,
    y: u64,
    words: &[u8],
) -> Result<(), AllocError>
    ensures { OnOk result (text.new.items ≡ text.old.items ++ element_text (words_at class.now x y words.now)) }
{
    push_open(text, b"text", class)?;
    push_place(text, x, y)?;
    text.push(b'>')?;
    push_escaped(text, words)?;
    push_close(text, b"text")
}

/// Draws a path of a class, by the commands of SVG, of which a browser tells the words, if there are any.
///
/// # Errors
/// There is no memory for it; some of it may stand in the text.
pub fn push_path(
    text: &mut Vec<u8>,
    class: &[u8],
    commands: &[u8],
    words: &[u8],
) -> Result<(), AllocError>
    ensures { OnOk result (text.new.items ≡ text.old.items ++ element_text (path_of class.now commands.now words.now)) }
{
    push_open(text, b"path", class)?;
    push_attribute(text, b"d", commands)?;
    push_title(text, words)?;
    push_close(text, b"path")
}

/// Says how the classes of elements look, by the rules of CSS.
///
/// # Errors
/// There is no memory for it; some of it may stand in the text.
pub fn push_style(text: &mut Vec<u8>, rules: &[u8]) -> Result<(), AllocError>
    ensures { OnOk result (text.new.items ≡ text.old.items ++ element_text (style_of rules.now)) }
{
    text.extend_from_slice(b"<style>")?;
    push_escaped(text, rules)?;
    text.extend_from_slice(b"</style>\n")?;
    Ok(())
}
