//! Words that are others but for one slip of the hand.

ghost use Rattle.std.specs.Prelude.{◌≡◌, ◌<◌, ◌++◌, OnOk, IfSome, find, length, map, option_map};
ghost use Rattle.pd_hints.specs.Slips.{behind_same, is_swapped_here, is_slip_here, is_slip, nearest, shown, meant_words, meant_text};

use std::alloc::AllocError;

fn is_swapped_here(word: &[u8], other: &[u8]) -> bool
    ensures { result ≡ is_swapped_here word.now other.now }
{
    match (word, other) {
        ([x, next_x, xs @ ..], [y, next_y, ys @ ..]) => *x == *next_y && *next_x == *y && xs == ys,
        _ => false,
    }
}

fn is_slip_here(word: &[u8], other: &[u8]) -> bool
    ensures { result ≡ is_slip_here word.now other.now }
{
    match (word, other) {
        ([_, xs @ ..], [_, ys @ ..]) => {
            xs == ys || word == ys || xs == other || is_swapped_here(word, other)
        }
        _ => word.len().saturating_add(other.len()) == 1,
    }
}

/// What stands behind the first letter of two words, where both begin with the same.
fn behind_same<'a>(word: &'a [u8], other: &'a [u8]) -> Option<(&'a [u8], &'a [u8])>
    ensures behind { option_map (λ p. (p.0.now, p.1.now)) result ≡ behind_same word.now other.now }
    ensures shorter { IfSome result (λ p. length p.0.now < length word.now) }
{
    match (word, other) {
        ([x, xs @ ..], [y, ys @ ..]) if *x == *y => Some((xs, ys)),
        _ => None,
    }
}

/// Whether a word is another but for one slip of the hand: another letter, a letter left out or too many, or two neighbours
/// swapped. A word is no slip of itself.
pub fn is_slip(word: &[u8], other: &[u8]) -> bool
    ensures { result ≡ is_slip word.now other.now }
{
    let mut left = word;
    let mut right = other;
    while let Some((xs, ys)) = behind_same(left, right) {
        left = xs;
        right = ys;
    }
    is_slip_here(left, right)
}

/// The first of some words of which a word is a slip.
fn first_near<'a>(word: &[u8], others: &[&'a str]) -> Option<&'a str>
    ensures { result ≡ find (λ other. is_slip word.now other.now) others.now }
{
    others
        .iter()
        .copied()
        .find(|other| is_slip(word, other.as_bytes()))
}

/// The first of some words of which a word is a slip.
pub fn nearest<'a>(word: &[u8], others: &[&'a str]) -> Option<&'a str>
    ensures { option_map (λ x. x.now) result ≡ nearest word.now (map (λ x. x.now) others.now) }
{
    first_near(word, others)
}

/// A byte as it is shown.
fn shown(byte: u8) -> u8
    ensures { result ≡ shown byte }
{
    if 32 <= byte && byte <= 126 {
        byte
    } else {
        b'?'
    }
}

fn push_shown(text: &mut Vec<u8>, word: &[u8]) -> Result<(), AllocError>
    ensures { OnOk result (text.new.items ≡ text.old.items ++ map shown word.now) }
{
    for byte in word {
        text.push(shown(*byte))?;
    }
    Ok(())
}

#[tactic(auto, unfolding(crate::specs::Slips::meant_words))]
fn push_meant_words(text: &mut Vec<u8>, other: &[u8]) -> Result<(), AllocError>
    ensures { OnOk result (text.new.items ≡ text.old.items ++ meant_words other.now) }
{
    text.extend_from_slice(b"did you mean `")?;
    push_shown(text, other)?;
    text.extend_from_slice(b"`?")?;
    Ok(())
}

/// Writes which word may have been meant, where there is one; what is no printable ASCII character is a question mark.
///
/// # Errors
/// There is no memory; some of it may stand in the text.
#[tactic(auto, unfolding(crate::specs::Slips::meant_text))]
pub fn push_meant(text: &mut Vec<u8>, other: Option<&str>) -> Result<(), AllocError>
    ensures { OnOk result (text.new.items ≡ text.old.items ++ meant_text (option_map (λ x. x.now) other.entry)) }
{
    match other {
        Some(other) => push_meant_words(text, other.as_bytes()),
        None => Ok(()),
    }
}
