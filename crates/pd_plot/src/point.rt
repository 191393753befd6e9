//! What is drawn of rows.

ghost use Rattle.std.specs.Prelude.{◌≡◌};
ghost use Rattle.pd_plot.specs.Points.{has_room, span_of, top_of, widened, widened_on};

/// What is drawn of a row: where it stands, its value, where it has one, whether an edit of it is refused, and whether it ran and not
/// all that is expected of it holds.
#[derive(Clone, Copy, Debug)]
pub(crate) struct Point {
    pub(crate) at: u64,
    pub(crate) value: Option<u64>,
    pub(crate) refused: bool,
    pub(crate) fails: bool,
}

/// The least and the greatest of some numbers.
#[derive(Clone, Copy, Debug)]
pub(crate) struct Span {
    pub(crate) least: u64,
    pub(crate) greatest: u64,
}

/// A value of a set: where it stands, in tenths of a pixel, and its text.
#[derive(Debug, Drop)]
pub(crate) struct Label {
    pub(crate) at: u64,
    pub(crate) text: Vec<u8>,
}

/// The span of some numbers and one more.
pub(crate) fn widened(span: Option<Span>, number: u64) -> Option<Span>
    ensures { result ≡ widened span number }
{
    match span {
        None => Some(Span {
            least: number,
            greatest: number,
        }),
        Some(span) => Some(Span {
            least: span.least.min(number),
            greatest: span.greatest.max(number),
        }),
    }
}

/// The span of some values and that of a row more.
fn widened_on(span: Option<Span>, point: &Point) -> Option<Span>
    ensures { result ≡ widened_on span point.now }
{
    match point.value {
        None => span,
        Some(value) => widened(span, value),
    }
}

/// The span of the values of rows, where any has one.
#[tactic(auto, unfolding(crate::specs::Points::span_of))]
pub(crate) fn span_of(points: &[Point]) -> Option<Span>
    ensures { result ≡ span_of points.now }
{
    let mut span = None;
    for point in points {
        span = widened_on(span, point);
    }
    span
}

/// Up to which value a panel reaches.
#[tactic(auto, unfolding(crate::specs::Points::top_of))]
pub(crate) fn top_of(points: &[Point]) -> u64
    ensures { result ≡ top_of points.now }
{
    match span_of(points) {
        None => 0,
        Some(span) => span.greatest,
    }
}

/// Whether there is so much room between a place and that of the label before.
pub(crate) fn has_room(space: u16, last: Option<u64>, at: u64) -> bool
    ensures { result ≡ has_room space last at }
{
    let Some(last) = last else {
        return true;
    };
    let (last, at, space) = (u128::from(last), u128::from(at), u128::from(space));
    last + space <= at || at + space <= last
}
