//! Shows that are written a page at a time.

ghost use Rattle.std.specs.Prelude.{◌≡◌, ◌+◌, ◌<◌, ◌≤◌, ◌++◌, ℕ, List, [], MatchOption, length, slice_get, take};
ghost use Rattle.std.specs.List.{flat_map};
ghost use Rattle.pd_device.specs.Device.{CountsFailure, Writes};
ghost use Rattle.pd_port.specs.declared.entry.Entry.{Entry as EntryData};
ghost use Rattle.pd_run.specs.Notes.{Leaves};

use pd_device::{BenchFault, Text, TextOut, write_text};
use pd_port::Entry;
use pd_run::{Note, Runner};

/// The most bytes of a page.
pub(crate) const PAGE: usize = 2_048;

/// The most bytes that an entry adds to a show.
pub(crate) const MOST: usize = 1_280;

/// A show, by what each entry adds to it.
pub(crate) trait Show {
    /// What a port's entry adds.
    ghost adds: { Self → ℕ × EntryData → List ℕ };

    /// What it shows: an entry that doesn't leave this adds nothing.
    fn note(&self) -> Note
        ensures { (move : ℕ × EntryData) → ¬ Leaves result move → adds self.now move ≡ [] };

    /// Adds to a page what an entry adds to the show.
    fn add(&self, port: usize, entry: &Entry, page: &mut Text<PAGE>)
        requires room { length page.old + MOST ≤ PAGE }
        ensures text { page.new ≡ page.old ++ adds self.now (port, entry.now) };
}

/// Writes what the entries of a run add to a show.
///
/// # Errors
/// `WriteFailed` where the writer failed or took no byte; the first few bytes of the text have gone out.
pub(crate) fn write_entries<const N: usize, S: Show, T: Runner<N>, W: TextOut>(
    show: &S,
    run: &T,
    writer: &mut W,
) -> Result<(), BenchFault>
    ensures text { Writes (W.taken writer.old) (W.taken writer.new) result (flat_map (S.adds show.now) (T.entries run.now)) }
    ensures counts { CountsFailure (W.failures writer.old) (W.failures writer.new) result }
{
    let mut seen = 0;
    while seen < run.len() {
        let (page, next) = page_from(show, run, seen);
        write_text(writer, &page)?;
        seen = next;
    }
    Ok(())
}

/// What the entries from one on add to a show, as many as a page takes; and how many entries are seen after it.
fn page_from<const N: usize, S: Show, T: Runner<N>>(
    show: &S,
    run: &T,
    from: usize,
) -> (Text<PAGE>, usize)
    requires { from < length (T.entries run.now) }
    ensures more { from < result.1 }
    ensures within { result.1 ≤ length (T.entries run.now) }
    ensures text { flat_map (S.adds show.now) (take result.1 (T.entries run.now))
        ≡ flat_map (S.adds show.now) (take from (T.entries run.now)) ++ result.0 }
{
    let note = show.note();
    let mut page = Text::new();
    let mut index = from;
    while index < run.len() && page.as_slice().len() <= PAGE - MOST {
        add_entry(show, run, index, &mut page);
        index = run.next_with(note, index + 1);
    }
    (page, index)
}

/// Adds to a page what the entry at an index adds to a show.
fn add_entry<const N: usize, S: Show, T: Runner<N>>(
    show: &S,
    run: &T,
    index: usize,
    page: &mut Text<PAGE>,
)
    requires within { index < length (T.entries run.now) }
    requires room { length page.old + MOST ≤ PAGE }
    ensures { MatchOption (slice_get (T.entries run.now) index) ⊥ (λ move. page.new ≡ page.old ++ S.adds show.now move) }
{
    if let Some((port, entry)) = run.entry(index) {
        show.add(port, entry, page);
    }
}
