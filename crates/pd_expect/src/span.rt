//! Ranges of numbers, and what stands around a byte.

ghost use Rattle.std.specs.Prelude.{◌≡◌, ◌==◌, ◌+◌, ◌<◌, ◌≤◌, IfSome, length, option_map};
ghost use Rattle.std.specs.List.{position_from};
ghost use Rattle.pd_expect.specs.Lines.{any_span, behind_dot, cut, ends_of, is_within, later_ends, span_of, two_ends};

use pd_units::{Unit, number_in};

/// The numbers from one to another, both of them among these.
#[derive(Clone, Copy, Debug, PartialEq, Eq)]
pub struct Span {
    pub from: u64,
    pub to: u64,
}

/// How many bytes stand before the first of a kind.
fn place_of(bytes: &[u8], byte: u8) -> Option<usize>
    ensures value { result ≡ position_from (λ other. other == byte) 0 bytes.now }
    ensures within { IfSome result (λ place. place < length bytes.now) }
{
    bytes.iter().position(|other| *other == byte)
}

/// The bytes before the first of a kind, and those behind it.
pub fn cut(byte: u8, bytes: &[u8]) -> Option<(&[u8], &[u8])>
    ensures value { option_map (λ x. (x.0.now, x.1.now)) result ≡ cut byte bytes.now }
    ensures lengths { IfSome result (λ x. length x.0.now + 1 + length x.1.now ≡ length bytes.now) }
{
    let place = place_of(bytes, byte)?;
    let (before, _) = bytes.split_at(place);
    let (_, behind) = bytes.split_at(place + 1);
    Some((before, behind))
}

/// What stands behind the second of two dots.
fn behind_dot(word: &[u8]) -> Option<&[u8]>
    ensures { option_map (λ x. x.now) result ≡ behind_dot word.now }
{
    match word {
        [b'.', behind @ ..] => Some(behind),
        _ => None,
    }
}

/// The ends of a word whose first dot is a decimal point, with this before it and that behind.
fn later_ends<'a>(word: &'a [u8], before: &[u8], behind: &'a [u8]) -> Option<(&'a [u8], &'a [u8])>
    requires { length before.now + 1 + length behind.now ≤ length word.now }
    ensures { option_map (λ x. (x.0.now, x.1.now)) result ≡ later_ends word.now before.now behind.now }
{
    let (fraction, rest) = cut(b'.', behind)?;
    let high = behind_dot(rest)?;
    let (low, _) = word.split_at(before.len() + 1 + fraction.len());
    Some((low, high))
}

/// The ends of `A..B`, around its two dots.
pub fn ends_of(word: &[u8]) -> Option<(&[u8], &[u8])>
    ensures { option_map (λ x. (x.0.now, x.1.now)) result ≡ ends_of word.now }
{
    let (before, behind) = cut(b'.', word)?;
    match behind_dot(behind) {
        Some(high) => Some((before, high)),
        None => later_ends(word, before, behind),
    }
}

/// Two numbers, the least and the greatest.
fn two_ends(unit: Unit, low: &[u8], high: &[u8]) -> Option<Span>
    ensures { result ≡ two_ends unit low.now high.now }
{
    let from = number_in(unit, low)?;
    let to = number_in(unit, high)?;
    Some(Span { from, to })
}

impl Span {
    /// Any number.
    pub(crate) const ANY: Span = Span {
        from: 0,
        to: u64::MAX,
    };

    /// The range of numbers of a unit that a word stands for: `A`, or `A..B`.
    pub(crate) fn read(unit: Unit, word: &[u8]) -> Option<Span>
        ensures { result ≡ span_of unit word.now }
    {
        if let Some((low, high)) = ends_of(word) {
            return two_ends(unit, low, high);
        }
        let number = number_in(unit, word)?;
        Some(Span {
            from: number,
            to: number,
        })
    }

    /// Whether a number is among these.
    pub fn has(self, number: u64) -> bool
        ensures { result ≡ is_within self number }
    {
        self.from <= number && number <= self.to
    }
}
