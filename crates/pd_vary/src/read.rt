//! How a set is read.

ghost use Rattle.std.specs.Prelude.{◌≡◌, ◌==◌, ◌⊎◌, ◌∷◌, ℕ, IfErr, IfOk, List, Ok, Err, map, option_map};
ghost use Rattle.std.specs.List.{list_all, list_any};
ghost use Rattle.pd_expect.specs.Lines.{cut, ends_of};
ghost use Rattle.pd_vary.specs.Sets.{behind_place, first_unit, fits, in_digits, is_opening, listed_by, number_of, parts, placed};
ghost use Rattle.pd_vary.specs.Sets.{placed_by, range_by, set_data, set_of, stepped, unit_behind, values_by, values_data, words_from};

use crate::set::MOST_ROWS;
use crate::{EditSet, SetFault, Values};
use pd_edit_lines::{Row, number, stop_of};
use pd_expect::{cut, ends_of};
use pd_sweep::push_wide;
use pd_units::{Unit, number_in, unit_at};
use std::alloc::{AllocError, Global};

/// The unit of what may stand by these rows, where it has one.
fn first_unit(rows: &[Row]) -> Option<Unit>
    ensures { result ≡ first_unit rows.now }
{
    match rows {
        [] => None,
        [row, ..] => unit_at(row.slot),
    }
}

/// The unit of what may stand behind these words of a line, where it has one.
pub(crate) fn unit_behind(before: &[u8]) -> Option<Unit>
    ensures { result ≡ unit_behind before.now }
{
    first_unit(stop_of(before).rows())
}

/// The number that a word stands for.
fn number_of(unit: Option<Unit>, word: &[u8]) -> Option<u64>
    ensures { result ≡ number_of unit word.now }
{
    match unit {
        None => number(word),
        Some(own) => number_in(own, word),
    }
}

/// Whether a word may stand in the place.
fn fits(unit: Option<Unit>, word: &[u8]) -> bool
    ensures { result ≡ fits unit word.now }
{
    match unit {
        None => true,
        Some(own) => number_in(own, word).is_some(),
    }
}

fn all_fit(unit: Option<Unit>, words: &[Vec<u8>]) -> bool
    ensures { result ≡ list_all (fits unit) (map (λ word. word.items) words.now) }
{
    let [word, more @ ..] = words else {
        return true;
    };
    fits(unit, word.as_slice()) && all_fit(unit, more)
}

/// A word as it stands in the place: a number of a unit in digits alone.
fn placed(alloc: Global, unit: Option<Unit>, word: &[u8]) -> Result<Vec<u8>, AllocError>
    ensures { IfOk result (λ text. text.items ≡ placed unit word.now) }
{
    let number = match unit {
        None => None,
        Some(own) => number_in(own, word),
    };
    let mut text = Vec::new(alloc);
    match number {
        None => text.extend_from_slice(word)?,
        Some(number) => push_wide(&mut text, u128::from(number))?,
    }
    Ok(text)
}

fn is_comma(byte: u8) -> bool
    ensures { result ≡ (byte == 44) }
{
    byte == b','
}

/// Adds a byte to the word that has begun, and answers that; or adds the word, where it is a comma, and answers a new one.
fn push_byte(
    alloc: Global,
    words: &mut Vec<Vec<u8>>,
    word: Vec<u8>,
    byte: u8,
) -> Result<Vec<u8>, AllocError>
    ensures { IfOk result (λ next. (rest : List ℕ) → words_from (map (λ w. w.items) words.old.items) word.items (byte ∷ rest)
        ≡ words_from (map (λ w. w.items) words.new.items) next.items rest) }
{
    if is_comma(byte) {
        words.push(word)?;
        let next = Vec::new(alloc);
        return Ok(next);
    }
    let mut word = word;
    word.push(byte)?;
    Ok(word)
}

/// The words that commas part.
pub(crate) fn parts(alloc: Global, text: &[u8]) -> Result<Vec<Vec<u8>>, AllocError>
    ensures { IfOk result (λ words. map (λ word. word.items) words.items ≡ parts text.now) }
{
    let mut words = Vec::new(alloc);
    let mut word = Vec::new(alloc);
    for byte in text {
        word = push_byte(alloc, &mut words, word, *byte)?;
    }
    words.push(word)?;
    Ok(words)
}

/// The words as they stand in the place.
fn all_placed(
    alloc: Global,
    unit: Option<Unit>,
    words: &[Vec<u8>],
) -> Result<Vec<Vec<u8>>, AllocError>
    ensures { IfOk result (λ texts. map (λ text. text.items) texts.items
        ≡ map (placed unit) (map (λ word. word.items) words.now)) }
{
    let mut texts = Vec::new(alloc);
    for word in words {
        texts.push(placed(alloc, unit, word.as_slice())?)?;
    }
    Ok(texts)
}

/// The values that words are, where each may stand in the place.
fn listed_by(alloc: Global, unit: Option<Unit>, text: &[u8]) -> Result<Values, SetFault>
    ensures ok { IfOk result (λ values. listed_by unit (parts text.now) ≡ Ok (values_data values)) }
    ensures err { IfErr result (λ fault. (fault ≡ SetFault.Memory) ⊎ (listed_by unit (parts text.now) ≡ Err fault)) }
{
    let words = parts(alloc, text)?;
    if !all_fit(unit, words.as_slice()) {
        return Err(SetFault::NoNumber);
    }
    Ok(Values::Words(all_placed(alloc, unit, words.as_slice())?))
}

/// The numbers from one to another, a step apart.
fn stepped(from: u64, to: u64, step: u64) -> Result<Values, SetFault>
    ensures ok { IfOk result (λ values. stepped from to step ≡ Ok (values_data values)) }
    ensures err { IfErr result (λ fault. stepped from to step ≡ Err fault) }
{
    if step == 0 {
        return Err(SetFault::NoStep);
    }
    if to < from {
        return Err(SetFault::Backwards);
    }
    let more = (to - from) / step;
    if more >= MOST_ROWS {
        return Err(SetFault::TooMany);
    }
    Ok(Values::Steps {
        from,
        step,
        count: more + 1,
    })
}

/// The numbers of a range with a step.
fn range_by(unit: Option<Unit>, range: &[u8], step: &[u8]) -> Result<Values, SetFault>
    ensures ok { IfOk result (λ values. range_by unit (ends_of range.now) step.now ≡ Ok (values_data values)) }
    ensures err { IfErr result (λ fault. range_by unit (ends_of range.now) step.now ≡ Err fault) }
{
    let Some((from, to)) = ends_of(range) else {
        return Err(SetFault::NoNumber);
    };
    match (
        number_of(unit, from),
        number_of(unit, to),
        number_of(unit, step),
    ) {
        (Some(from), Some(to), Some(step)) => stepped(from, to, step),
        _ => Err(SetFault::NoNumber),
    }
}

/// The values that a text has: FROM..TO/STEP, or words with commas between them.
fn values_by(alloc: Global, unit: Option<Unit>, text: &[u8]) -> Result<Values, SetFault>
    ensures ok { IfOk result (λ values. values_by unit text.now (cut 47 text.now) ≡ Ok (values_data values)) }
    ensures err { IfErr result (λ fault. (fault ≡ SetFault.Memory) ⊎ (values_by unit text.now (cut 47 text.now) ≡ Err fault)) }
{
    match cut(b'/', text) {
        None => listed_by(alloc, unit, text),
        Some((range, step)) => range_by(unit, range, step),
    }
}

/// What stands behind the brace that closes the place, where nothing else stands in it.
fn behind_place(text: &[u8]) -> Option<&[u8]>
    ensures { option_map (λ x. x.now) result ≡ behind_place text.now }
{
    match text {
        [b'}', behind @ ..] => Some(behind),
        _ => None,
    }
}

fn is_opening(byte: u8) -> bool
    ensures { result ≡ is_opening byte }
{
    byte == b'{'
}

fn has_opening(text: &[u8]) -> bool
    ensures { result ≡ list_any is_opening text.now }
{
    text.iter().any(|byte| is_opening(*byte))
}

fn copied(alloc: Global, text: &[u8]) -> Result<Vec<u8>, AllocError>
    ensures { IfOk result (λ copy. copy.items ≡ text.now) }
{
    text.to_vec(alloc)
}

/// The set of a line with a place, by what stands before that and behind its first brace, and of these values.
fn placed_by(alloc: Global, values: &[u8], before: &[u8], place: &[u8]) -> Result<EditSet, SetFault>
    ensures ok { IfOk result (λ set. placed_by values.now before.now (behind_place place.now) ≡ Ok (set_data set)) }
    ensures err { IfErr result (λ fault. (fault ≡ SetFault.Memory)
        ⊎ (placed_by values.now before.now (behind_place place.now) ≡ Err fault)) }
{
    let Some(behind) = behind_place(place) else {
        return Err(SetFault::NoPlace);
    };
    if has_opening(behind) {
        return Err(SetFault::TwoPlaces);
    }
    let values = values_by(alloc, unit_behind(before), values)?;
    Ok(EditSet {
        before: copied(alloc, before)?,
        behind: copied(alloc, behind)?,
        values,
    })
}

/// Reads a set: an edit line with one place `{}` in it, `=`, and the values that stand there in turn. These are words with commas between
/// them, or the numbers FROM..TO/STEP. Where the place has a unit, as the milliwatts of a floor, each of them is a number of it: bare, or
/// with a unit of the same kind behind it.
///
/// # Errors
/// The text is no set, or there is no memory.
#[tactic(auto, unfolding(crate::specs::Sets::set_of))]
pub fn read_set(alloc: Global, text: &[u8]) -> Result<EditSet, SetFault>
    ensures ok { IfOk result (λ set. set_of text.now ≡ Ok (set_data set)) }
    ensures err { IfErr result (λ fault. (fault ≡ SetFault.Memory) ⊎ (set_of text.now ≡ Err fault)) }
{
    let Some((line, values)) = cut(b'=', text) else {
        return Err(SetFault::NoValues);
    };
    match cut(b'{', line) {
        None => Err(SetFault::NoPlace),
        Some((before, place)) => placed_by(alloc, values, before, place),
    }
}
