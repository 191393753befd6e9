//! Edit lines with a place in them, and the values that stand there in turn.

ghost use Rattle.std.specs.Prelude.{◌≡◌, ◌++◌, ◌∷◌, ◌/◌, ◌<◌, ◌≤◌, [], IfOk, IfSome, OnOk, map};
ghost use Rattle.pd_vary.specs.Sets.{all_values, count_of, few_rows, line_with, rows_of, set_data, unit_behind, value_at, values_at};
ghost use Rattle.pd_vary.specs.Sets.{values_data};

use crate::read::unit_behind;
use pd_sweep::push_wide;
use pd_units::Unit;
use std::alloc::{AllocError, Global};
use thiserror::Error;

/// The most rows that are made.
pub(crate) const MOST_ROWS: u64 = 1_000_000;

/// What stands in the place of a line in turn.
#[derive(Debug, Drop)]
pub enum Values {
    /// These words.
    Words(Vec<Vec<u8>>),
    /// So many numbers, each by the same step after the one before.
    Steps { from: u64, step: u64, count: u64 },
}

/// An edit line with a place in it: what stands before the place and behind it, and what stands there in turn.
#[derive(Debug, Drop)]
pub struct EditSet {
    pub before: Vec<u8>,
    pub behind: Vec<u8>,
    pub values: Values,
}

/// Why a text is no set.
#[derive(Clone, Copy, Debug, PartialEq, Eq, Error)]
pub enum SetFault {
    #[error("no `=` stands between an edit line and its values, as in `floor 1 {{}}=45W,60W`")]
    NoValues,
    #[error("no place `{{}}` stands in the edit line, as in `floor 1 {{}}=45W,60W`")]
    NoPlace,
    #[error("more than one place `{{}}` stands in the edit line")]
    TwoPlaces,
    #[error("a value is no number that may stand in the place, or the range isn't FROM..TO/STEP")]
    NoNumber,
    #[error("the range ends before it begins")]
    Backwards,
    #[error("the step of the range is 0")]
    NoStep,
    #[error("the range has more than 1000000 numbers")]
    TooMany,
    #[error("there is no memory for it")]
    Memory,
}

impl From<AllocError> for SetFault {
    ghost use Rattle.pd_vary.specs.declared.set.SetFault.TheVariants.{Memory};

    ghost from_gives = { λ _ fault. fault ≡ Memory };

    fn from(_: AllocError) -> SetFault {
        Self::Memory
    }
}

impl Values {
    /// How many there are; none is one that is empty.
    fn count(&self) -> u64
        ensures value { result ≡ count_of (values_data self.now) }
        ensures some { 1 ≤ result }
    {
        let count = match self {
            Values::Words(words) => words.len() as u64,
            Values::Steps { count, .. } => *count,
        };
        count.max(1)
    }

    /// Writes one of them, the first at 0.
    fn push(&self, text: &mut Vec<u8>, place: u64) -> Result<(), AllocError>
        ensures { OnOk result (text.new.items ≡ text.old.items ++ value_at (values_data self.now) place) }
    {
        match self {
            Values::Words(words) => match words.get(place as usize) {
                Some(word) => text.extend_from_slice(word.as_slice()),
                None => Ok(()),
            },
            Values::Steps { from, step, .. } => push_wide(
                text,
                u128::from(*from) + u128::from(place) * u128::from(*step),
            ),
        }
    }
}

impl EditSet {
    /// How many values there are.
    pub fn count(&self) -> u64
        ensures { result ≡ count_of (set_data self.now).values }
    {
        self.values.count()
    }

    /// The unit of the values, where they have one.
    pub fn unit(&self) -> Option<Unit>
        ensures { result ≡ unit_behind (set_data self.now).before }
    {
        unit_behind(self.before.as_slice())
    }

    /// The values as they stand in the place.
    ///
    /// # Errors
    /// There is no memory for them.
    pub fn texts(&self, alloc: Global) -> Result<Vec<Vec<u8>>, AllocError>
        ensures { IfOk result (λ texts. map (λ text. text.items) texts.items ≡ all_values (set_data self.now).values) }
    {
        let mut texts = Vec::new(alloc);
        for place in 0..self.count() {
            let text = value_at(alloc, self, place)?;
            texts.push(text)?;
        }
        Ok(texts)
    }

    /// Writes the line with a value in its place.
    ///
    /// # Errors
    /// There is no memory for it; some of it may stand in the text.
    pub(crate) fn push_line(&self, text: &mut Vec<u8>, value: &[u8]) -> Result<(), AllocError>
        ensures { OnOk result (text.new.items ≡ text.old.items ++ line_with (set_data self.now) value.now) }
    {
        text.extend_from_slice(self.before.as_slice())?;
        text.extend_from_slice(value)?;
        text.extend_from_slice(self.behind.as_slice())
    }
}

/// How many rows some sets have, where these are no more than a million.
#[tactic(auto, unfolding(crate::specs::Sets::rows_of))]
pub fn few_rows(sets: &[EditSet]) -> Option<u64>
    ensures value { result ≡ few_rows (map set_data sets.now) }
    ensures some { IfSome result (λ rows. 1 ≤ rows) }
{
    let [set, more @ ..] = sets else {
        return Some(1);
    };
    let rows = u128::from(set.values.count()) * u128::from(few_rows(more)?);
    if rows <= u128::from(MOST_ROWS) {
        Some(rows as u64)
    } else {
        None
    }
}

/// The text of a value at a place.
fn value_at(alloc: Global, set: &EditSet, place: u64) -> Result<Vec<u8>, AllocError>
    ensures { IfOk result (λ value. value.items ≡ value_at (set_data set.now).values place) }
{
    let mut value = Vec::new(alloc);
    set.values.push(&mut value, place)?;
    Ok(value)
}

/// Adds the first set's value in a row, and answers how many rows the other sets have.
fn push_first_value(
    alloc: Global,
    values: &mut Vec<Vec<u8>>,
    set: &EditSet,
    more: &[EditSet],
    row: u64,
    rows: u64,
) -> Result<u64, AllocError>
    requires { rows ≡ rows_of (set_data set.now ∷ map set_data more.now) }
    ensures later { IfOk result (λ later. later ≡ rows_of (map set_data more.now)) }
    ensures some { IfOk result (λ later. 0 < later) }
    ensures values { OnOk result (map (λ value. value.items) values.new.items ≡ map (λ value. value.items) values.old.items
        ++ value_at (set_data set.now).values (row / rows_of (map set_data more.now)) ∷ []) }
{
    let _others = more;
    let count = set.values.count();
    let later = rows / count;
    let value = value_at(alloc, set, row / later)?;
    values.push(value)?;
    Ok(later)
}

/// Adds the values of a row, the first at 0, by the sets, which have so many rows.
///
/// # Errors
/// There is no memory; some of the values may be there.
#[tactic(auto, using(crate::proofs::SetLemmas::pushed), unfolding(crate::specs::Sets::values_at))]
pub(crate) fn push_row_values(
    alloc: Global,
    values: &mut Vec<Vec<u8>>,
    sets: &[EditSet],
    row: u64,
    rows: u64,
) -> Result<(), AllocError>
    requires { rows ≡ rows_of (map set_data sets.now) }
    ensures { OnOk result (map (λ value. value.items) values.new.items
        ≡ map (λ value. value.items) values.old.items ++ values_at (map set_data sets.now) row) }
{
    let [set, more @ ..] = sets else {
        return Ok(());
    };
    let later = push_first_value(alloc, values, set, more, row, rows)?;
    push_row_values(alloc, values, more, row % later, later)
}
