//! A run beside an older one: spans that the older one has too are shared, and in the others the moves that it has.

ghost use Rattle.std.specs.Prelude.{◌≡◌, ◌⊎◌, ℕ, ◌+◌, ◌*◌, ◌-◌, ◌<◌, ◌≤◌, ◌++◌, ◌∷◌};
ghost use Rattle.std.specs.Prelude.{◌↔◌, [], List, IfOk, OnOk, IsTrue, map, length, All, Some, None, false, true, cond};
ghost use Rattle.std.specs.Prelude.{slice_index_or};
ghost use Rattle.pd_port.specs.Port.{PortData};
ghost use Rattle.pd_scenario.specs.Plan.{Plan as PlanData, IsPlan, floors_of};
ghost use Rattle.pd_run.specs.Live.{StandsAfter, port_at};
ghost use Rattle.pd_run.specs.Run.{Move};
ghost use Rattle.pd_run.specs.Start.{no_port};
ghost use Rattle.pd_run.specs.UpTo.{IsUpTo, AgreeInScripts};
ghost use Rattle.pd_keep.specs.Kept.{KeptData, move_of, IsMade, IsOwn};
ghost use Rattle.pd_keep.specs.Kept.{RunData, IsKnown, left_by};
ghost use Rattle.pd_keep.specs.Following.{AreNumbered, CanFollow, ComesApart, ShareAlike};
ghost use Rattle.pd_keep.specs.declared.rerun.Common.{Common as CommonData};
ghost use Rattle.pd_keep.specs.Places.{ArePlaced, StandAs};
ghost use Rattle.pd_keep.specs.Rerun.{IsOld, IsSoFar, Stands, Costs, ComesTo, AreStanding, AreThose, IsDone, IsShared, AreOver};
ghost use Rattle.pd_keep.specs.Rerun.{AreKnown, BeginsWith, BeginsWithMarked, HaveInCommon};
ghost use Rattle.pd_keep.specs.Spans.{IsKept, kept_of_spans, moves_of};

use crate::answered::are_answered;
use crate::follow::follow_span;
use crate::kept_move::{KeptMoves, Place};
use crate::one_span::{STRIDE, run_span};
use crate::spans::Spans;
use crate::spare::{Spare, SpareLists};
use pd_port::Meter;
use pd_run::{Agreement, Beside, Live, Plan};
use std::alloc::{AllocError, Global};
use std::rc::Rc;

/// Where the ports of a run stand at the beginning of a span: as those of the older run there, or for themselves. Then those that
/// are marked are known to stand as the older run's all the same, and needn't be compared.
#[derive(Drop)]
pub enum Standing<const N: usize> {
    Alike,
    Apart(Live<N>, [bool; 8]),
}

/// What two plans have in common in a span: how far they ask the same in it, and whether their ports are known to have the same floors.
#[derive(Clone, Copy)]
pub struct Common {
    pub agree: Agreement,
    pub same_floors: bool,
}

/// The run of a plan, beside an older one or none. The meter rises by the moves that the older run doesn't have.
///
/// # Errors
/// There is no memory.
pub fn rerun<const N: usize>(
    alloc: Global,
    old: &Plan<N>,
    old_spans: &Spans,
    plan: &Plan<N>,
    spare: &mut Spare,
    meter: &mut Meter,
) -> Result<Spans, AllocError>
    requires old { IsOld N old.now old_spans.now }
    ensures kept { IfOk result (λ spans. IsKept N plan.now spans) }
    ensures cost { IfOk result (λ spans. Costs old.now (moves_of old_spans.now) plan.now (moves_of spans) meter.old meter.new) }
    ensures rises { meter.old ≤ meter.new }
{
    let _end = plan.end();
    let _count = meter.count();
    let mut spans = Spans::new(alloc, spare.take_lists(alloc));
    let (at, standing) = run_beside(alloc, old, old_spans, plan, &mut spans, spare, meter)?;
    if let Standing::Apart(mut live, _) = standing {
        finish(alloc, plan, at, &mut live, &mut spans, meter)?;
        spare.steps = live.into_spare();
    }
    Ok(spans)
}

// The spans that both runs have: where they end, and how the ports stand there.
fn run_beside<const N: usize>(
    alloc: Global,
    old: &Plan<N>,
    old_spans: &Spans,
    plan: &Plan<N>,
    spans: &mut Spans,
    spare: &mut Spare,
    meter: &mut Meter,
) -> Result<(u64, Standing<N>), AllocError>
    requires old { IsOld N old.now old_spans.now }
    requires none { spans.old ≡ [] }
    ensures so_far { IfOk result (λ r. IsSoFar N plan.now spans.new r.0) }
    ensures standing { IfOk result (λ r. Stands N old.now old_spans.now plan.now (moves_of spans.new) r.0 r.1) }
    ensures done { IfOk result (λ r. IsDone N plan.now r.0 r.1) }
    ensures over { IfOk result (λ r. r.0 ≤ plan.now.end → AreOver old_spans.now r.0) }
    ensures cost { IfOk result (λ r. Costs old.now (moves_of old_spans.now) plan.now (moves_of spans.new) meter.old meter.new) }
    ensures rises { meter.old ≤ meter.new }
{
    let _end = plan.end();
    let _count = meter.count();
    let _places = old_spans.count();
    let mut beside = Beside::new(alloc, old, plan)?;
    let same_floors = have_same_floors(old, plan);
    let live = Live::new(alloc, plan)?.with_spare(spare.steps.take_all(alloc));
    let mut standing = Standing::Apart(live, [false; 8]);
    let mut at = 0;
    let mut place = 0;
    while at <= plan.end() {
        let Some(span) = old_spans.span(place) else {
            return Ok((at, standing));
        };
        let agree = beside.advance(old, plan, span.to());
        let common = Common { agree, same_floors };
        standing = next_spans(alloc, span, plan, at, common, standing, spans, spare, meter)?;
        at = span.to();
        place += 1;
    }
    Ok((at, standing))
}

// Whether each port has the same floor in both plans.
fn have_same_floors<const N: usize>(old: &Plan<N>, plan: &Plan<N>) -> bool
    ensures { IsTrue result ↔ (floors_of old.now ≡ floors_of plan.now) }
{
    let _ends = (old.end(), plan.end());
    for place in 0..N {
        if old.settings(place + 1).floor_mw() != plan.settings(place + 1).floor_mw() {
            return false;
        }
    }
    true
}

// The spans of a run up to the end of the older one's.
fn next_spans<const N: usize>(
    alloc: Global,
    old: &Rc<KeptMoves>,
    plan: &Plan<N>,
    at: u64,
    common: Common,
    standing: Standing<N>,
    spans: &mut Spans,
    spare: &mut Spare,
    meter: &mut Meter,
) -> Result<Standing<N>, AllocError>
    requires comes { (old_plan : PlanData) × (old_spans : List RunData)
        × ComesTo N old_plan old_spans old.now.value plan.now spans.old at common standing }
    ensures so_far { OnOk result (IsSoFar N plan.now spans.new old.now.value.to) }
    ensures stands { IfOk result (λ then. (old_plan : PlanData) (old_spans : List RunData)
        → ComesTo N old_plan old_spans old.now.value plan.now spans.old at common standing.entry
        → Stands N old_plan old_spans plan.now (moves_of spans.new) old.now.value.to then) }
    ensures cost { OnOk result ((old_plan : PlanData) (old_spans : List RunData) (first : ℕ)
        → ComesTo N old_plan old_spans old.now.value plan.now spans.old at common standing.entry
        → Costs old_plan (moves_of old_spans) plan.now (moves_of spans.old) first meter.old
        → Costs old_plan (moves_of old_spans) plan.now (moves_of spans.new) first meter.new) }
    ensures rises { meter.old ≤ meter.new }
{
    let _end = plan.end();
    let _count = meter.count();
    let shared = is_shared(alloc, old, plan, common, &standing)?;
    if shared {
        spans.push(old.clone()?)?;
        if let Standing::Apart(live, _) = standing {
            spare.steps = live.into_spare();
        }
        return Ok(Standing::Alike);
    }
    let (mut live, alike) = standing_live(alloc, old, plan, at, standing, spare)?;
    let alike = go_on(alloc, old, plan, at, common, &mut live, alike, spans, meter)?;
    Ok(Standing::Apart(live, alike))
}

// Whether a span of the older run is one of the run too: the ports stand alike at its beginning, and both plans ask the same in it,
// or have the same scripts, and what is asked is answered alike.
fn is_shared<const N: usize>(
    alloc: Global,
    old: &KeptMoves,
    plan: &Plan<N>,
    common: Common,
    standing: &Standing<N>,
) -> Result<bool, AllocError>
    requires comes { (old_plan : PlanData) × (old_spans : List RunData) × (spans : List RunData) × (at : ℕ)
        × ComesTo N old_plan old_spans old.now plan.now spans at common standing.now }
    ensures { IfOk result (λ shared. IsTrue shared → (old_plan : PlanData) (old_spans : List RunData) (spans : List RunData) (at : ℕ)
        → ComesTo N old_plan old_spans old.now plan.now spans at common standing.now
        → IsShared N old_plan old_spans old.now plan.now (moves_of spans) at) }
{
    match common.agree {
        Agreement::Not => Ok(false),
        Agreement::Both => Ok(stands_alike(standing, old)),
        Agreement::Scripts => {
            if !stands_alike(standing, old) {
                return Ok(false);
            }
            are_answered(alloc, plan, old)
        }
    }
}

// The ports where they stand at the beginning of a span, and which of them are known to stand as the older run's.
fn standing_live<const N: usize>(
    alloc: Global,
    old: &KeptMoves,
    plan: &Plan<N>,
    at: u64,
    standing: Standing<N>,
    spare: &mut Spare,
) -> Result<(Live<N>, [bool; 8]), AllocError>
    requires comes { (old_plan : PlanData) × (old_spans : List RunData) × (spans : List RunData) × (common : CommonData)
        × ComesTo N old_plan old_spans old.now plan.now spans at common standing }
    ensures stands { IfOk result (λ r. (old_plan : PlanData) (old_spans : List RunData) (spans : List RunData) (common : CommonData)
        → ComesTo N old_plan old_spans old.now plan.now spans at common standing.entry → StandsAfter plan.now (moves_of spans) r.0) }
    ensures known { IfOk result (λ r. (old_plan : PlanData) (old_spans : List RunData) (spans : List RunData) (common : CommonData)
        → ComesTo N old_plan old_spans old.now plan.now spans at common standing.entry → BeginsWithMarked N old.now r.0 r.1) }
{
    match standing {
        Standing::Alike => {
            let ports = old.first_ports(alloc)?;
            let live = Live::resume(alloc, plan, ports, at)?;
            Ok((live.with_spare(spare.steps.take_all(alloc)), [true; 8]))
        }
        Standing::Apart(live, alike) => Ok((live, alike)),
    }
}

// Whether the ports stand as those of the older run at the beginning of its span.
fn stands_alike<const N: usize>(standing: &Standing<N>, span: &KeptMoves) -> bool
    requires few { N ≤ 8 }
    requires known { AreKnown N standing.now span.now }
    ensures { IsTrue result ↔ AreStanding N standing.now span.now }
{
    match standing {
        Standing::Alike => true,
        Standing::Apart(live, alike) => begins_with(span, live, alike),
    }
}

// Whether a span begins with these ports. It does with those that are marked, which aren't compared.
fn begins_with<const N: usize>(span: &KeptMoves, live: &Live<N>, alike: &[bool; 8]) -> bool
    requires few { N ≤ 8 }
    requires known { BeginsWithMarked N span.now live.now alike.now }
    ensures { IsTrue result ↔ BeginsWith N span.now live.now }
{
    for port in 0..N {
        if !alike[port] && !span.begins_with(port, live.port(port + 1)) {
            return false;
        }
    }
    true
}

// Whether both plans have the same scripts.
fn have_same_scripts(common: Common) -> bool
    ensures { IsTrue result → (a : PlanData) (b : PlanData) (from to : ℕ) → HaveInCommon common a b from to → AgreeInScripts a b from to }
{
    match common.agree {
        Agreement::Not => false,
        Agreement::Both => true,
        Agreement::Scripts => true,
    }
}

// Whether both plans are known to share alike.
fn share_alike(common: Common) -> bool
    ensures { IsTrue result → (a : PlanData) (b : PlanData) (from to : ℕ) → HaveInCommon common a b from to → ShareAlike a b from to }
{
    match common.agree {
        Agreement::Both => common.same_floors,
        Agreement::Not | Agreement::Scripts => false,
    }
}

// The spans of a run to the end of the older one's, in which the ports that are marked follow it where both plans have the same scripts.
// Which are known to stand as the older run's afterwards.
fn go_on<const N: usize>(
    alloc: Global,
    old: &KeptMoves,
    plan: &Plan<N>,
    from: u64,
    common: Common,
    live: &mut Live<N>,
    alike: [bool; 8],
    spans: &mut Spans,
    meter: &mut Meter,
) -> Result<[bool; 8], AllocError>
    requires comes { (a : PlanData) × (old_spans : List RunData)
        × ComesApart N a old_spans old.now plan.now spans.old from common alike live.old }
    ensures so_far { OnOk result (IsSoFar N plan.now spans.new old.now.to) }
    ensures stands { OnOk result (StandsAfter plan.now (moves_of spans.new) live.new) }
    ensures known { IfOk result (λ alike. StandAs N alike live.new (left_by old.now.first old.now.moves)) }
    ensures cost { OnOk result ((a : PlanData) (old_spans : List RunData) (first : ℕ)
        → ComesApart N a old_spans old.now plan.now spans.old from common alike live.old
        → Costs a (moves_of old_spans) plan.now (moves_of spans.old) first meter.old
        → Costs a (moves_of old_spans) plan.now (moves_of spans.new) first meter.new) }
    ensures rises { meter.old ≤ meter.new }
{
    let (_end, _count, to) = (plan.end(), meter.count(), old.to());
    if have_same_scripts(common) {
        let share = share_alike(common);
        return follow_on(alloc, old, plan, from, share, live, alike, spans, meter);
    }
    run_on(alloc, old, plan, from, to, live, alike, spans, meter)
}

// A span of a run in which the ports that are marked follow the older run's. Which are known to stand as those afterwards.
fn follow_on<const N: usize>(
    alloc: Global,
    old: &KeptMoves,
    plan: &Plan<N>,
    from: u64,
    share: bool,
    live: &mut Live<N>,
    alike: [bool; 8],
    spans: &mut Spans,
    meter: &mut Meter,
) -> Result<[bool; 8], AllocError>
    requires made { All IsMade old.now.moves }
    requires numbered { AreNumbered N old.now.moves }
    requires soon { from ≤ plan.now.end }
    requires so_far { IsSoFar N plan.now spans.old from }
    requires follows { (a : PlanData) × (all : List Move)
        × CanFollow N a all old.now plan.now (moves_of spans.old) from alike share live.old }
    ensures so_far { OnOk result (IsSoFar N plan.now spans.new old.now.to) }
    ensures stands { OnOk result (StandsAfter plan.now (moves_of spans.new) live.new) }
    ensures known { IfOk result (λ alike. StandAs N alike live.new (left_by old.now.first old.now.moves)) }
    ensures cost { OnOk result ((a : PlanData) (all : List Move) (olds : List KeptData) (first : ℕ)
        → CanFollow N a all old.now plan.now (moves_of spans.old) from alike share live.old → All (IsOwn a) olds
        → AreThose olds from old.now.to old.now.moves
        → Costs a (map move_of olds) plan.now (moves_of spans.old) first meter.old
        → Costs a (map move_of olds) plan.now (moves_of spans.new) first meter.new) }
    ensures rises { meter.old ≤ meter.new }
{
    let lists = spans.lists(alloc);
    let (span, alike) = follow_span(alloc, lists, old, &alike, share, plan, live, meter)?;
    spans.push(Rc::new(alloc, span)?)?;
    Ok(alike)
}

// The spans of a run from one time to another, beside what is kept of an older one in between. Of the ports those that are marked
// stand as the older run's. Which are known to do so afterwards.
fn run_on<const N: usize>(
    alloc: Global,
    old: &KeptMoves,
    plan: &Plan<N>,
    from: u64,
    to: u64,
    live: &mut Live<N>,
    alike: [bool; 8],
    spans: &mut Spans,
    meter: &mut Meter,
) -> Result<[bool; 8], AllocError>
    requires made { All IsMade old.now.moves }
    requires rising { from < to }
    requires soon { from ≤ plan.now.end }
    requires known { BeginsWithMarked N old.now live.old alike }
    requires so_far { IsSoFar N plan.now spans.old from }
    requires stands { StandsAfter plan.now (moves_of spans.old) live.old }
    ensures so_far { OnOk result (IsSoFar N plan.now spans.new to) }
    ensures stands { OnOk result (StandsAfter plan.now (moves_of spans.new) live.new) }
    ensures known { IfOk result (λ alike. StandAs N alike live.new (left_by old.now.first old.now.moves)) }
    ensures cost { OnOk result ((old_plan : PlanData) (all : List KeptData) (first : ℕ) → All (IsOwn old_plan) all
        → AreThose all from to old.now.moves → Costs old_plan (map move_of all) plan.now (moves_of spans.old) first meter.old
        → Costs old_plan (map move_of all) plan.now (moves_of spans.new) first meter.new) }
    ensures rises { meter.old ≤ meter.new }
{
    let _end = plan.end();
    let _count = meter.count();
    let mut places = first_places(alike);
    let mut at = from;
    while at < to {
        let lists = spans.lists(alloc);
        let span = run_span(alloc, lists, old, &mut places, plan, live, to, meter)?;
        at = span.to();
        spans.push(Rc::new(alloc, span)?)?;
    }
    Ok(alike_after(old, &places))
}

// The places of the ports in a span with which those that are marked begin.
fn first_places(alike: [bool; 8]) -> [Option<Place>; 8]
    ensures count { length result ≡ 8 }
    ensures are { (p : ℕ) → p < 8 → slice_index_or result p None ≡ cond (slice_index_or alike p false) (Some Place.First) None }
{
    let mut places = [None; 8];
    for port in 0..8 {
        places[port] = first_place(alike[port]);
    }
    places
}

fn first_place(alike: bool) -> Option<Place>
    ensures { result ≡ cond alike (Some Place.First) None }
{
    if alike { Some(Place::First) } else { None }
}

// Which of the ports that stand at these places are known to stand as the moves leave them.
fn alike_after(old: &KeptMoves, places: &[Option<Place>; 8]) -> [bool; 8]
    ensures { (p : ℕ) → p < 8 → slice_index_or result p false ≡ true → (x : PortData)
        → IsKnown old.now.first old.now.moves p (slice_index_or places.now p None) x → x ≡ left_by old.now.first old.now.moves p }
{
    let mut alike = [false; 8];
    for port in 0..8 {
        alike[port] = old.leaves(port, places[port]);
    }
    alike
}

// What is left of a run, which the older one doesn't have.
fn finish<const N: usize>(
    alloc: Global,
    plan: &Plan<N>,
    from: u64,
    live: &mut Live<N>,
    spans: &mut Spans,
    meter: &mut Meter,
) -> Result<(), AllocError>
    requires so_far { IsSoFar N plan.now spans.old from }
    requires stands { StandsAfter plan.now (moves_of spans.old) live.old }
    ensures kept { OnOk result (IsKept N plan.now spans.new) }
    ensures cost { OnOk result ((old : PlanData) (old_spans : List RunData) (first : ℕ) → (from ≤ plan.now.end → AreOver old_spans from)
        → All (IsOwn old) (kept_of_spans old_spans)
        → Costs old (moves_of old_spans) plan.now (moves_of spans.old) first meter.old
        → Costs old (moves_of old_spans) plan.now (moves_of spans.new) first meter.new) }
    ensures rises { meter.old ≤ meter.new }
{
    let end = plan.end();
    let _count = meter.count();
    if end < from {
        return Ok(());
    }
    let nothing = KeptMoves::in_lists(SpareLists::new(alloc), Vec::new(alloc), 0)?;
    // Beyond the end, so that a later end leaves no boundary of its own.
    let to = (end / STRIDE + 1) * STRIDE;
    run_on(
        alloc, &nothing, plan, from, to, live, [false; 8], spans, meter,
    )?;
    Ok(())
}
