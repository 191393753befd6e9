//! The moves of a run in spans, which runs share.

ghost use Rattle.std.specs.Prelude.{◌≡◌, ◌+◌, ◌*◌, ◌<◌, ◌≤◌, ◌++◌, ◌∷◌, [], ℕ, List, OnOk, IfSome, length, map, option_map};
ghost use Rattle.std.specs.Prelude.{◌-◌, ◌/◌, max, replicate, slice_get, slice_index_or, take};
ghost use Rattle.pd_run.specs.Notes.{IsNextWith};
ghost use Rattle.pd_keep.specs.Firsts.{AreStarts, IsPlaceOf};
ghost use Rattle.pd_keep.specs.Kept.{RunData, shown_of};
ghost use Rattle.pd_keep.specs.Spans.{kept_of_spans};

use crate::kept_move::KeptMoves;
use crate::spare::{Spare, SpareLists};
use pd_port::Entry;
use pd_run::Note;
use std::alloc::{AllocError, Global};
use std::marker::Model;
use std::rc::Rc;

/// What is kept of one span of time, and how many moves the run has before it.
#[derive(Drop)]
pub struct Span {
    first: usize,
    kept: Rc<KeptMoves>,
}

/// For the moves whose numbers are multiples of this, the places of spans are kept.
const STRIDE: usize = 64;

/// The spans of a run, in their order. A span may be shared with other runs. To find the span of a move soon, the places of the spans
/// of some moves (`STRIDE`) are kept beside them. Lists that are spare are kept for more spans.
#[derive(Drop)]
pub struct Spans {
    spans: Vec<Span>,
    len: usize,
    starts: Vec<usize>,
    spare: Vec<SpareLists>,
}

impl Model for Spans {
    ghost use Rattle.std.specs.Prelude.{◌≡◌, length, map, List};
    ghost use Rattle.pd_keep.specs.Kept.{RunData};
    ghost use Rattle.pd_keep.specs.Spans.{kept_of_spans};
    ghost use Rattle.pd_keep.specs.Firsts.{AreCounted, AreStarts, span_of};

    ghost Value = { List RunData };

    ghost view = { λ s. map span_of s.spans.items };

    ghost invariant = { λ s. AreCounted s.spans.items × (s.len ≡ length (kept_of_spans (map span_of s.spans.items)))
        × AreStarts s.starts.items (map span_of s.spans.items) };
}

impl Spans {
    /// No spans, and lists for them that are spare.
    pub fn new(alloc: Global, spare: Vec<SpareLists>) -> Spans
        ensures { result ≡ [] }
    {
        Spans {
            spans: Vec::new(alloc),
            len: 0,
            starts: Vec::new(alloc),
            spare,
        }
    }

    /// The lists for one more span: spare ones, where there are any.
    pub fn lists(&mut self, alloc: Global) -> SpareLists
        ensures { self.new ≡ self.old }
    {
        match self.spare.pop() {
            Some(lists) => lists,
            None => SpareLists::new(alloc),
        }
    }

    /// The number of moves in all spans.
    pub fn len(&self) -> usize
        ensures { result ≡ length (kept_of_spans self.now) }
    {
        self.len
    }

    /// The number of spans.
    pub fn count(&self) -> usize
        ensures { result ≡ length self.now }
    {
        self.spans.len()
    }

    /// A span, by its place.
    pub fn span(&self, k: usize) -> Option<&Rc<KeptMoves>>
        ensures { option_map (λ s. s.now.value) result ≡ slice_get self.now k }
    {
        let span = self.spans.get(k)?;
        Some(&span.kept)
    }

    /// Takes back the room of the moves and spans that no other run has, and what was spare of lists. It asks for no memory.
    pub fn take_back(self, spare: &mut Spare) {
        spare.lists = self.spare;
        for span in self.spans {
            if let Some(kept) = Rc::into_inner(span.kept) {
                let lists = kept.take_back(&mut spare.steps);
                let _placed = spare.lists.push(lists);
            }
        }
    }

    /// Adds a span at the end.
    ///
    /// # Errors
    /// There is no memory, as where there are more moves than a `usize` counts.
    pub fn push(&mut self, kept: Rc<KeptMoves>) -> Result<(), AllocError>
        ensures { OnOk result (self.new ≡ self.old ++ kept.value ∷ []) }
    {
        let Some(len) = self.len.checked_add(kept.len()) else {
            return Err(AllocError);
        };
        // Its lists have a place among the spare ones from now on, so that to take them back asks for no memory.
        self.spare.reserve(self.spans.len().saturating_add(1))?;
        let (place, first) = (self.spans.len(), self.len);
        self.spans.push(Span { first, kept })?;
        self.len = len;
        put_starts(&mut self.starts, place, first, len)
    }

    /// A move's port and entry, by its place in the run.
    pub fn entry(&self, i: usize) -> Option<(usize, &Entry)>
        ensures { option_map (λ r. (r.0, r.1.now)) result ≡ option_map shown_of (slice_get (kept_of_spans self.now) i) }
    {
        let place = self.place_of(i);
        let span = self.spans.get(place)?;
        span.kept.entry(i - span.first)
    }

    /// The place of the first move from one on whose entry leaves a note, or the number of moves where none does.
    pub fn next_with(&self, note: Note, from: usize) -> usize
        ensures { IsNextWith note (map shown_of (kept_of_spans self.now)) from result }
    {
        let len = self.len();
        let mut place = self.place_of(from);
        while let Some(span) = self.spans.get(place) {
            let next = span.kept.next_with(note, from.saturating_sub(span.first));
            if next < span.kept.len() {
                return span.first + next;
            }
            place += 1;
        }
        len
    }

    // The span that has a move, which is the last one that doesn't begin after it.
    fn place_of(&self, i: usize) -> usize
        ensures { IsPlaceOf self.now i result }
    {
        let mut place = start_of(&self.starts, i);
        while place + 1 < self.spans.len() && self.spans[place + 1].first <= i {
            place += 1;
        }
        place
    }
}

// Where the search for a move's span begins: the place that is kept for the last multiple of the stride up to the move's number.
fn start_of(starts: &[usize], i: usize) -> usize
    ensures { result ≡ slice_index_or starts.now (i / 64) 0 }
{
    match starts.get(i / STRIDE) {
        Some(start) => *start,
        None => 0,
    }
}

// Keeps the place of the last span, which has the moves from a first one on up to so many in all, for the multiples of the stride that
// have none yet.
fn put_starts(
    starts: &mut Vec<usize>,
    place: usize,
    first: usize,
    len: usize,
) -> Result<(), AllocError>
    ensures placed { starts.new.items ≡ starts.old.items ++ replicate (length starts.new.items - length starts.old.items) place }
    ensures few { length starts.new.items ≤ max (length starts.old.items) (len / 64 + 1) }
    ensures all { OnOk result (first ≤ length starts.old.items * 64 → len < length starts.new.items * 64) }
    ensures starts { (spans : List RunData) → place < length spans → length (kept_of_spans (take place spans)) ≤ first
        → AreStarts starts.old.items spans → AreStarts starts.new.items spans }
{
    while starts.len() <= len / STRIDE && first <= starts.len() * STRIDE {
        starts.push(place)?;
    }
    Ok(())
}
