//! What stands at a key, as it is shown.

ghost use Rattle.std.specs.Prelude.{◌≡◌, ◌++◌, OnOk, decimal};
ghost use Rattle.std.specs.Fmt.{signed_decimal};
ghost use Rattle.toml.specs.View.{view};
ghost use Rattle.pd_misfits.specs.Values.{printable, quoted, shown, value_text};

use itoa::Buffer;
use std::alloc::AllocError;
use toml::Value;

/// Writes a number in decimal digits.
///
/// # Errors
/// There is no memory; some of the digits may stand there.
pub fn push_number(text: &mut Vec<u8>, number: u64) -> Result<(), AllocError>
    ensures { OnOk result (text.new.items ≡ text.old.items ++ decimal number) }
{
    let mut buffer = Buffer::new();
    text.extend_from_slice(buffer.format(number).as_bytes())
}

/// Writes words and a number.
pub fn push_behind(text: &mut Vec<u8>, front: &str, number: u64) -> Result<(), AllocError>
    ensures { OnOk result (text.new.items ≡ text.old.items ++ (front.now ++ decimal number)) }
{
    text.extend_from_slice(front.as_bytes())?;
    push_number(text, number)
}

/// Writes a number in decimal digits, with its sign where it is negative.
pub fn push_signed(text: &mut Vec<u8>, number: i64) -> Result<(), AllocError>
    ensures { OnOk result (text.new.items ≡ text.old.items ++ signed_decimal number) }
{
    let mut buffer = Buffer::new();
    text.extend_from_slice(buffer.format(number).as_bytes())
}

/// A byte as it is shown.
fn printable(byte: u8) -> u8
    ensures { result ≡ printable byte }
{
    if 32 <= byte && byte <= 126 {
        byte
    } else {
        b'?'
    }
}

/// Writes a word; what is no printable ASCII character is shown as a question mark.
pub(crate) fn push_printable(text: &mut Vec<u8>, word: &[u8]) -> Result<(), AllocError>
    ensures { OnOk result (text.new.items ≡ text.old.items ++ shown word.now) }
{
    for byte in word {
        text.push(printable(*byte))?;
    }
    Ok(())
}

/// Writes a word in quotes; what is no printable ASCII character is shown as a question mark.
///
/// # Errors
/// There is no memory; some of the word may stand there.
#[tactic(auto, unfolding(crate::specs::Values::quoted))]
pub fn push_quoted(text: &mut Vec<u8>, word: &[u8]) -> Result<(), AllocError>
    ensures { OnOk result (text.new.items ≡ text.old.items ++ quoted word.now) }
{
    text.push(b'`')?;
    push_printable(text, word)?;
    text.push(b'`')?;
    Ok(())
}

/// Writes a value.
pub fn push_value(text: &mut Vec<u8>, value: &Value) -> Result<(), AllocError>
    ensures { OnOk result (text.new.items ≡ text.old.items ++ value_text (view value.now)) }
{
    match value {
        Value::String(word) => push_quoted(text, word.as_bytes()),
        Value::Integer(number) => push_signed(text, *number),
        Value::Float(_) => text.extend_from_slice(b"a fraction"),
        Value::Boolean(true) => text.extend_from_slice(b"true"),
        Value::Boolean(false) => text.extend_from_slice(b"false"),
        Value::Datetime(_) => text.extend_from_slice(b"a date or a time"),
        Value::Array(_) => text.extend_from_slice(b"a list"),
        Value::Table(_) => text.extend_from_slice(b"a table"),
    }
}
