//! What is drawn of rows, by what comes of them.

ghost use Rattle.std.specs.Prelude.{◌≡◌, IfOk};
ghost use Rattle.pd_plot.specs.Layouts.{point_of, points_from, value_at};

use crate::places::place_at;
use crate::point::Point;
use pd_vary::Outcome;
use std::alloc::{AllocError, Global};

/// What is measured at an index, where there is such a number.
fn value_at(index: usize, numbers: &[Option<u64>]) -> Option<u64>
    ensures { result ≡ value_at index numbers.now }
{
    match numbers.get(index) {
        Some(number) => *number,
        None => None,
    }
}

/// What is drawn of a row.
fn point_of(index: usize, at: u64, outcome: &Outcome) -> Point
    ensures { result ≡ point_of index at outcome.now }
{
    let fails = !outcome.all_hold();
    match outcome {
        Outcome::Refused(_) => Point {
            at,
            value: None,
            refused: true,
            fails: false,
        },
        Outcome::Ran { numbers, .. } => Point {
            at,
            value: value_at(index, numbers.as_slice()),
            refused: false,
            fails,
        },
    }
}

/// What is drawn of rows that stand at these places.
#[tactic(auto, unfolding(crate::specs::Layouts::points_from))]
pub(crate) fn points_of(
    alloc: Global,
    index: usize,
    places: &[u64],
    outcomes: &[Outcome],
) -> Result<Vec<Point>, AllocError>
    ensures { IfOk result (λ points. points.items ≡ points_from index places.now 0 outcomes.now) }
{
    let mut points = Vec::new(alloc);
    let mut row = 0;
    for outcome in outcomes {
        points.push(point_of(index, place_at(places, row), outcome))?;
        row += 1;
    }
    Ok(points)
}
