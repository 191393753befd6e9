//! A span of a run beside an older run's: moves that the older one has are shared.

ghost use Rattle.std.specs.Prelude.{◌≡◌, ◌⊎◌, ℕ, ◌+◌, ◌-◌, ◌<◌, ◌≤◌, ◌++◌, ◌∷◌, [], List, IfOk, OnOk, IfSome, IfNone, IsTrue, map, length};
ghost use Rattle.std.specs.Prelude.{Contains};
ghost use Rattle.std.specs.Prelude.{All, slice_index, slice_index_or, slice_set};
ghost use Rattle.pd_port.specs.Meter.{raised};
ghost use Rattle.pd_port.specs.Port.{ask};
ghost use Rattle.pd_scenario.specs.Plan.{Plan as PlanData, IsPlan, force};
ghost use Rattle.pd_run.specs.Live.{LiveData, StandsAfter, IsNext, IsNextBeside, port_at, moved_port, moved_live, reply_at};
ghost use Rattle.pd_run.specs.Run.{Move};
ghost use Rattle.pd_run.specs.Start.{no_port};
ghost use Rattle.pd_run.specs.StepsLeft.{steps_left};
ghost use Rattle.pd_run.specs.UpTo.{IsUpTo};
ghost use Rattle.pd_keep.specs.Kept.{KeptData, held_by, kept_of, move_of, marks_kept, rank_kept, IsMade, IsOwn, IsKnown, AreInTime};
ghost use Rattle.pd_keep.specs.Kept.{NoneStands};
ghost use Rattle.pd_keep.specs.Ranks.{IsBefore, rank_of};
ghost use Rattle.pd_keep.specs.Charge.{Charges};
ghost use Rattle.pd_keep.specs.Following.{IsOwnNext};
ghost use Rattle.pd_keep.specs.Places.{ArePlaced};
ghost use Rattle.pd_keep.specs.Rerun.{AreThose, Costs, IsNextSpan};

use crate::kept_move::{KeptMove, KeptMoves, Place};
use crate::rank::Rank;
use crate::spare::SpareLists;
use pd_objects::Answer;
use pd_port::{Due, Meter, Port};
use pd_run::{Asked, Live, Marks, Plan};
use std::alloc::{AllocError, Global};

/// So many moves are enough for a span.
const ENOUGH: usize = 64;

/// Most spans have no more moves than these.
const ROOM: usize = 160;

/// A span that has enough moves ends at a multiple of this time, in microseconds, so that there aren't ever more spans than
/// these.
pub const STRIDE: u64 = 131_072;

/// The moves of a run up to a time, or to an earlier one where these are enough for a span, beside an older run's, in which the
/// ports stand at these places. The meter rises by those that the older one doesn't have.
///
/// # Errors
/// There is no memory. The ports stand anywhere.
pub fn run_span<const N: usize>(
    alloc: Global,
    lists: SpareLists,
    old: &KeptMoves,
    places: &mut [Option<Place>; 8],
    plan: &Plan<N>,
    live: &mut Live<N>,
    to: u64,
    meter: &mut Meter,
) -> Result<KeptMoves, AllocError>
    requires made { All IsMade old.now.moves }
    requires placed { ArePlaced N old.now places.old live.old }
    requires stands { (past : List Move) × StandsAfter plan.now past live.old }
    ensures span { IfOk result (λ span. (past : List Move) (from : ℕ) → from < to → StandsAfter plan.now past live.old
        → IsUpTo plan.now past from → IsNextSpan N plan.now past from span) }
    ensures ends { IfOk result (λ span. (span.to ≤ to) × ((span.to ≡ to) ⊎ (span.to ≤ plan.now.end))) }
    ensures stands { IfOk result (λ span. (past : List Move) → StandsAfter plan.now past live.old
        → StandsAfter plan.now (past ++ map move_of span.moves) live.new) }
    ensures placed { OnOk result (ArePlaced N old.now places.new live.new) }
    ensures cost { IfOk result (λ span. (old_plan : PlanData) (all : List KeptData) (past : List Move) (from : ℕ)
        → All (IsOwn old_plan) all → AreThose all from to old.now.moves → StandsAfter plan.now past live.old → IsUpTo plan.now past from
        → Costs old_plan (map move_of all) plan.now (map move_of span.moves) meter.old meter.new) }
    ensures rises { meter.old ≤ meter.new }
{
    let (_end, _count, mut from) = (plan.end(), meter.count(), 0);
    let mut span = KeptMoves::in_lists(lists, live.ports(alloc)?, ROOM)?;
    while let Some((port, due)) = next_before(live, plan, to) {
        if let Some(end) = end_before(&span, due.time) {
            return Ok(span.ended(end));
        }
        let asked = live.reply_beside(plan, port, &due);
        from = seek(old, from, &Rank::of(port, &due));
        let left = places[port - 1];
        let (kept, marks, at) = make(alloc, old, from, left, plan, live, port, due, asked, meter)?;
        span.push(port, kept, marks)?;
        places[port - 1] = at;
    }
    Ok(span.ended(to))
}

// Where a span ends before a time, if its moves are enough.
fn end_before(span: &KeptMoves, time: u64) -> Option<u64>
    requires { AreInTime span.now.moves }
    ensures { IfSome result (λ end. (end ≤ time) × (0 < length span.now.moves) × All (λ m. m.due.time < end) (map move_of span.now.moves)) }
{
    if span.len() < ENOUGH {
        return None;
    }
    let end = time - time % STRIDE;
    if span.time(span.len() - 1) < end {
        Some(end)
    } else {
        None
    }
}

// The port that moves next, with what falls due on it, if that is before a time.
pub fn next_before<const N: usize>(live: &Live<N>, plan: &Plan<N>, to: u64) -> Option<(usize, Due)>
    ensures next { IfSome result (λ r. IsNext plan.now live.now r.0 r.1 × (r.1.time < to)) }
    ensures none { IfNone result ((past : List Move) → StandsAfter plan.now past live.now
        → All (λ m. m.due.time < to) past → IsUpTo plan.now past to) }
    ensures own { IsOwnNext plan.now live.now to result }
    ensures is_plan { IsPlan N plan.now }
{
    let (port, due) = live.next(plan)?;
    if due.time < to {
        Some((port, due))
    } else {
        None
    }
}

// A port's move for a due, with its marks, and where the port stands in the old run then: shared where the old run has it, else a step.
// The other ports needn't stand where their moves have left them.
#[inline(always)]
pub fn make<const N: usize>(
    alloc: Global,
    old: &KeptMoves,
    from: usize,
    left: Option<Place>,
    plan: &Plan<N>,
    live: &mut Live<N>,
    port: usize,
    due: Due,
    asked: Asked,
    meter: &mut Meter,
) -> Result<(KeptMove, Marks, Option<Place>), AllocError>
    requires made { All IsMade old.now.moves }
    requires before { NoneStands (rank_of port due) old.now.moves from }
    requires left { IsKnown old.now.first old.now.moves (port - 1) left (port_at live.old (port - 1)) }
    requires plan { IsPlan N plan.now }
    requires room { length live.old.ports ≡ N }
    requires next { (past : List Move) × (whole : LiveData) × IsNextBeside plan.now past whole port due live.old }
    requires query { asked.query ≡ ask (port_at live.old (port - 1)).settings (port_at live.old (port - 1)).port_record due }
    requires answer { asked.answer ≡ reply_at live.old (port - 1) due }
    ensures kept { IfOk result (λ r. r.0 ≡ kept_of port (port_at live.old (port - 1)) due asked.answer) }
    ensures marks { IfOk result (λ r. r.1 ≡ marks_kept r.0) }
    ensures found { IfOk result (λ r. IsKnown old.now.first old.now.moves (port - 1) r.2 (moved_port live.old (port - 1) due)) }
    ensures moved { OnOk result (live.new ≡ moved_live plan.now live.old (port - 1) due) }
    ensures charges { OnOk result
        (Charges old.now.moves (kept_of port (port_at live.old (port - 1)) due asked.answer) meter.old meter.new) }
    ensures rises { meter.old ≤ meter.new }
{
    let (held, before) = (live.hold(port), live.port(port));
    if let Some(i) = find(old, from, left, port, held, before, &due, &asked.answer) {
        let kept = old.kept(i).share()?;
        live.settle(plan, port, &due, kept.after()?);
        return Ok((kept, old.marks(i), Some(Place::After(i))));
    }
    let kept = step(alloc, plan, live, port, due, asked, meter)?;
    let marks = Marks::of(port, kept.entry());
    Ok((kept, marks, None))
}

// A port's move for a due that the old run doesn't have.
#[inline(always)]
fn step<const N: usize>(
    alloc: Global,
    plan: &Plan<N>,
    live: &mut Live<N>,
    port: usize,
    due: Due,
    asked: Asked,
    meter: &mut Meter,
) -> Result<KeptMove, AllocError>
    requires plan { IsPlan N plan.now }
    requires room { length live.old.ports ≡ N }
    requires next { (past : List Move) × (whole : LiveData) × IsNextBeside plan.now past whole port due live.old }
    requires query { asked.query ≡ ask (port_at live.old (port - 1)).settings (port_at live.old (port - 1)).port_record due }
    requires answer { asked.answer ≡ reply_at live.old (port - 1) due }
    ensures kept { IfOk result (λ kept. kept ≡ kept_of port (port_at live.old (port - 1)) due asked.answer) }
    ensures moved { OnOk result (live.new ≡ moved_live plan.now live.old (port - 1) due) }
    ensures meter { OnOk result (meter.new ≡ raised meter.old 1) }
    ensures rises { meter.old ≤ meter.new }
{
    let before = live.share(port)?;
    let step = live.step_beside(alloc, plan, port, &due, asked, meter)?;
    Ok(KeptMove::new(port, before, step))
}

// A place of the old run before which no move stands here. It is looked for from where it was before, if the moves up to there stand
// before, else from the first one. A run comes to each rank in its order, so what comes before is passed over once.
pub fn seek(old: &KeptMoves, from: usize, rank: &Rank) -> usize
    ensures { NoneStands rank.now old.now.moves result }
{
    if !old.is_ranked() {
        return 0;
    }
    let mut at = resumed(old, from, rank);
    while at < old.len() && old.rank(at).is_before(rank) {
        at += 1;
    }
    at
}

// A place, if the move before it stands before this, else the first.
fn resumed(old: &KeptMoves, from: usize, rank: &Rank) -> usize
    ensures within { result ≤ length old.now.moves }
    ensures passed { 1 ≤ result → (k : KeptData) → IsBefore (rank_kept (slice_index_or old.now.moves (result - 1) k)) rank.now }
{
    if 0 < from && from <= old.len() && old.rank(from - 1).is_before(rank) {
        from
    } else {
        0
    }
}

// The place of a move in the old run, of which no move before `from` stands where it does.
fn find(
    old: &KeptMoves,
    from: usize,
    left: Option<Place>,
    port: usize,
    held: u64,
    before: &Port,
    due: &Due,
    answer: &Option<Answer>,
) -> Option<usize>
    requires made { All IsMade old.now.moves }
    requires before { NoneStands (rank_of port due.now) old.now.moves from }
    requires left { IsKnown old.now.first old.now.moves (port - 1) left before.now }
    requires held { held ≡ held_by before.now }
    ensures found { IfSome result (λ i. i < length old.now.moves
        × slice_index_or old.now.moves i (kept_of port before.now due.now answer.now) ≡ kept_of port before.now due.now answer.now) }
    ensures none { IfNone result (Contains old.now.moves (kept_of port before.now due.now answer.now) → ⊥) }
{
    let rank = Rank::of(port, due);
    let ranked = old.is_ranked();
    for i in from..old.len() {
        if ranked && rank.is_before(&old.rank(i)) {
            return None;
        }
        if old.repeats(i, left, port, held, before, due, answer) {
            return Some(i);
        }
    }
    None
}
