//! The words of a line, and what a word stands for.
ghost use Rattle.std.specs.Prelude.{◌≡◌, ◌≢◌, ◌<◌, ◌≤◌, ℕ, option_map, slice_index, length};
ghost use Rattle.pd_edit_lines.specs.Words.{words, next, number, name, number_at, name_at, end_of};

use pd_scenario::{Name, is_name};

fn without_spaces(line: &[u8]) -> &[u8]
    ensures same { words result.now ≡ words line.now }
    ensures front { slice_index result.now 0 ≢ 32 }
{
    let mut rest = line;
    while let [b' ', others @ ..] = rest {
        rest = others;
    }
    rest
}

/// How many bytes stand before the first space.
fn word_len(line: &[u8]) -> usize
    ensures within { result ≤ length line.now }
    ensures before { (k : ℕ) → k < result → slice_index line.now k ≢ 32 }
    ensures found { result < length line.now → slice_index line.now result ≡ 32 }
{
    for (i, byte) in line.iter().enumerate() {
        if *byte == b' ' {
            return i;
        }
    }
    line.len()
}

/// The first word of a line, and what stands after it; `None` where no word is left.
pub fn next(line: &[u8]) -> Option<(&[u8], &[u8])>
    ensures { option_map (λ x. (x.0.now, words x.1.now)) result ≡ next (words line.now) }
{
    let rest = without_spaces(line);
    if rest.is_empty() {
        return None;
    }
    Some(rest.split_at(word_len(rest)))
}

/// Whether no word is left.
pub(crate) fn end_of(line: &[u8]) -> Option<()>
    ensures { result ≡ end_of (words line.now) }
{
    match next(line) {
        Some(_) => None,
        None => Some(()),
    }
}

/// The number that a word of 1 to 10 digits stands for.
pub fn number(word: &[u8]) -> Option<u64>
    ensures { result ≡ number word.now }
{
    if word.is_empty() || word.len() > 10 {
        return None;
    }
    let mut value = 0u64;
    for byte in word {
        if !byte.is_ascii_digit() {
            return None;
        }
        value = 10 * value + u64::from(*byte - b'0');
    }
    Some(value)
}

/// The name that a word is.
pub(crate) fn name(word: &[u8]) -> Option<Name>
    ensures { result ≡ name word.now }
{
    if !is_name(word) {
        return None;
    }
    match std::str::from_utf8(word) {
        Ok(text) => Some(Name::new(text)),
        Err(_) => None,
    }
}

/// The first word as a number, and what stands after it.
pub(crate) fn number_at(line: &[u8]) -> Option<(u64, &[u8])>
    ensures { option_map (λ x. (x.0, words x.1.now)) result ≡ number_at (words line.now) }
{
    let (word, rest) = next(line)?;
    Some((number(word)?, rest))
}

/// The first word as a name, and what stands after it.
pub(crate) fn name_at(line: &[u8]) -> Option<(Name, &[u8])>
    ensures { option_map (λ x. (x.0, words x.1.now)) result ≡ name_at (words line.now) }
{
    let (word, rest) = next(line)?;
    Some((name(word)?, rest))
}
