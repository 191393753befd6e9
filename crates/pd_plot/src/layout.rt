//! How rows are laid out.

ghost use Rattle.std.specs.Prelude.{◌≡◌, ◌++◌, IfOk, IfSome, MatchResult, None, Some, Ok, Err, OnOk, length, map, option_map};
ghost use Rattle.std.specs.List.{range_with_len};
ghost use Rattle.pd_plot.specs.Layouts.{heat_by, layout_data, layout_of, line_by, places_of, set_words, table_of, unit_of};
ghost use Rattle.pd_plot.specs.Pictures.{caption_words};
ghost use Rattle.pd_vary.specs.Sets.{count_of, set_data};

use crate::Table;
use crate::amounts::push_in_brackets;
use crate::places::{indices, xs_of};
use pd_vary::EditSet;
use std::alloc::{AllocError, Global};
use thiserror::Error;

/// How the rows of one set or two are laid out.
#[derive(Clone, Copy)]
pub enum Layout<'a> {
    /// Along one set.
    Line(&'a EditSet),
    /// Down the first of two sets, and along the second.
    Heat(&'a EditSet, &'a EditSet, Table),
}

/// Why sets have no picture.
#[derive(Clone, Copy, Debug, PartialEq, Eq, Error)]
pub enum Unfit {
    #[error("--draw draws one --set or two")]
    Sets,
    #[error("--draw draws at most 2000 values of one --set")]
    Rows,
    #[error("--draw draws at most 100 values of each of two --set")]
    Side,
}

/// The layout of one set.
fn line_of(along: &EditSet) -> Result<Layout<'_>, Unfit>
    ensures { MatchResult result (λ layout. line_by (set_data along.now) ≡ Ok (layout_data layout))
        (λ unfit. line_by (set_data along.now) ≡ Err unfit) }
{
    if along.count() <= 2_000 {
        Ok(Layout::Line(along))
    } else {
        Err(Unfit::Rows)
    }
}

/// The layout of two sets.
fn heat_of<'a>(down: &'a EditSet, along: &'a EditSet) -> Result<Layout<'a>, Unfit>
    ensures { MatchResult result (λ layout. heat_by (set_data down.now) (set_data along.now) ≡ Ok (layout_data layout))
        (λ unfit. heat_by (set_data down.now) (set_data along.now) ≡ Err unfit) }
{
    let (rows, columns) = (down.count(), along.count());
    if rows <= 100 && columns <= 100 {
        let table = Table {
            columns: columns as u8,
            rows: rows as u8,
        };
        Ok(Layout::Heat(down, along, table))
    } else {
        Err(Unfit::Side)
    }
}

/// Writes a set as it is named: its line, and the unit of its values.
fn push_set(text: &mut Vec<u8>, set: &EditSet) -> Result<(), AllocError>
    ensures { OnOk result (text.new.items ≡ text.old.items ++ set_words (set_data set.now)) }
{
    text.extend_from_slice(set.before.as_slice())?;
    text.extend_from_slice(b"{}")?;
    text.extend_from_slice(set.behind.as_slice())?;
    push_in_brackets(text, set.unit())
}

impl Layout<'_> {
    /// The layout of sets.
    ///
    /// # Errors
    /// These are none or more than two, or have too many values.
    pub fn of(sets: &[EditSet]) -> Result<Layout<'_>, Unfit>
        ensures { MatchResult result (λ layout. layout_of (map set_data sets.now) ≡ Ok (layout_data layout))
            (λ unfit. layout_of (map set_data sets.now) ≡ Err unfit) }
    {
        match sets {
            [] => Err(Unfit::Sets),
            [along] => line_of(along),
            [down, along] => heat_of(down, along),
            [_, _, _, ..] => Err(Unfit::Sets),
        }
    }

    /// Where rows stand.
    pub(crate) fn places(&self, alloc: Global, rows: usize) -> Result<Vec<u64>, AllocError>
        ensures { IfOk result (λ places. places.items ≡ places_of (layout_data self.now) rows) }
    {
        match *self {
            Layout::Line(along) => {
                let words = along.texts(alloc)?;
                xs_of(alloc, words.as_slice())
            }
            Layout::Heat(..) => indices(alloc, rows),
        }
    }

    /// Writes what the rows are along, and down.
    #[tactic(auto, unfolding(crate::specs::Pictures::caption_words))]
    pub(crate) fn push_caption(&self, text: &mut Vec<u8>) -> Result<(), AllocError>
        ensures { OnOk result (text.new.items ≡ text.old.items ++ caption_words (layout_data self.now)) }
    {
        match *self {
            Layout::Line(along) => {
                text.extend_from_slice(b"along: ")?;
                push_set(text, along)
            }
            Layout::Heat(down, along, _) => {
                text.extend_from_slice(b"down: ")?;
                push_set(text, down)?;
                text.extend_from_slice(b"; along: ")?;
                push_set(text, along)
            }
        }
    }
}
