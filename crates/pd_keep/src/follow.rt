//! A span of a run beside an older run's, in which ports that stand as the older run's follow it.

ghost use Rattle.std.specs.Prelude.{◌≡◌, ◌⊎◌, ◌↔◌, ℕ, ◌-◌, ◌<◌, ◌≤◌, ◌++◌, List, IfOk, IfSome, IfNone, OnOk, IsTrue, IsFalse, map, length};
ghost use Rattle.std.specs.Prelude.{All, Bool, MatchOption, None, replicate, true, false, slice_index_or};
ghost use Rattle.pd_port.specs.Port.{PortData};
ghost use Rattle.pd_scenario.specs.Plan.{Plan as PlanData, count, force};
ghost use Rattle.pd_run.specs.Live.{LiveData, StandsAfter, StandsBut, at_budget, port_at};
ghost use Rattle.pd_run.specs.Run.{Move, IsAnswered};
ghost use Rattle.pd_run.specs.Start.{no_port};
ghost use Rattle.pd_keep.specs.Following.{AreNumbered, CanFollow, ComesAfter, ComesFirst, HasCome, HasCameOn, HasPassed, IsAway};
ghost use Rattle.pd_keep.specs.Following.{followed_to, IsFirstFollowed, IsFollowedTurn, IsNextFollowed, IsOwnNext, IsOwnTurn};
ghost use Rattle.pd_keep.specs.Following.{IsPassing, IsThrough, KeepHold};
ghost use Rattle.pd_keep.specs.declared.kept_move.Brief.{Brief as BriefData};
ghost use Rattle.pd_keep.specs.Kept.{KeptData, move_of, moves_from, IsBrief, IsKnown, IsMade, IsOwn, held_by, left_by};
ghost use Rattle.pd_keep.specs.Places.{StandAs};
ghost use Rattle.pd_keep.specs.Rerun.{AreThose, Costs, IsNextSpan};

use crate::kept_move::{Brief, KeptMoves, Place};
use crate::one_span::{make, next_before, seek};
use crate::rank::Rank;
use crate::spare::SpareLists;
use pd_port::{Due, Meter};
use pd_run::{Live, Plan};
use std::alloc::{AllocError, Global};

/// How far a span has come beside an older one: so many moves of the older one are past; from where its moves are looked for; whether
/// both plans are known to share alike in it, and each port to hold as much now as in the older run; these ports follow it, and the others
/// stand at these places in it; and the moves of the span.
#[derive(Drop)]
pub struct Course {
    pub at: usize,
    pub from: usize,
    pub same_holds: bool,
    pub away: [bool; 8],
    pub places: [Option<Place>; 8],
    pub span: KeptMoves,
}

// The first move from a place on whose port follows, or the number of moves where there is none.
fn next_followed(old: &KeptMoves, from: usize, away: &[bool; 8]) -> usize
    requires numbered { AreNumbered 8 old.now.moves }
    requires within { from ≤ length old.now.moves }
    ensures { IsNextFollowed old.now.moves away.now from result }
{
    let mut at = from;
    while at < old.len() && !follows(away, &old.brief(at)) {
        at += 1;
    }
    at
}

// The older run's moves of ports that don't follow are past, up to the first move whose port follows.
fn pass_over(old: &KeptMoves, course: &mut Course)
    requires numbered { AreNumbered 8 old.now.moves }
    requires within { course.old.at ≤ length old.now.moves }
    ensures next { IsNextFollowed old.now.moves course.new.away course.old.at course.new.at }
    ensures held { IsTrue course.new.same_holds ↔ (IsTrue course.old.same_holds
        × KeepHold old.now.moves course.old.at course.new.at) }
    ensures rest { course.new ≡ record course.old { at = course.new.at; same_holds = course.new.same_holds } }
{
    let at = next_followed(old, course.at, &course.away);
    course.same_holds = course.same_holds && keep_hold(old, course.at, at);
    course.at = at;
}

// Whether no move from a place to another changes what its port holds.
fn keep_hold(old: &KeptMoves, from: usize, to: usize) -> bool
    requires within { to ≤ length old.now.moves }
    ensures { IsTrue result ↔ KeepHold old.now.moves from to }
{
    for i in from..to {
        if !old.brief(i).keeps_hold {
            return false;
        }
    }
    true
}

// Whether a move's port follows.
fn follows(away: &[bool; 8], brief: &Brief) -> bool
    requires first { 1 ≤ brief.now.port }
    requires last { brief.now.port ≤ 8 }
    ensures { result ≡ slice_index_or away.now (brief.now.port - 1) false }
{
    away[brief.port - 1]
}

// Whether there is such a move, and it comes before what is next on the other ports.
fn comes_first(old: &KeptMoves, at: usize, own: &Option<(usize, Due)>) -> bool
    ensures first { IsTrue result → (k : KeptData) → (at < length old.now.moves) × ComesFirst (slice_index_or old.now.moves at k) own.now }
    ensures other { IsFalse result → (k : KeptData) → at < length old.now.moves
        → MatchOption own.now ⊥ (λ r. ComesAfter (slice_index_or old.now.moves at k) r.0 r.1) }
{
    if at >= old.len() {
        return false;
    }
    let brief = old.brief(at);
    match own {
        None => true,
        Some((port, due)) => {
            brief.time < due.time || brief.time == due.time && brief.port < *port
        }
    }
}

// Where the moves end, from a place on, that follow, come before what is next on the other ports, and have the answers that the shared
// budget gives. They have passed.
fn pass_on<const N: usize>(
    old: &KeptMoves,
    course: &Course,
    plan: &Plan<N>,
    live: &mut Live<N>,
    own: &Option<(usize, Due)>,
) -> usize
    requires numbered { AreNumbered N old.now.moves }
    requires own { IsOwnNext plan.now live.old old.now.to own.now }
    requires come { (a : PlanData) × (all : List Move) × (past : List Move) × (from : ℕ) × (most : ℕ) × (first : ℕ) × (meter : ℕ)
        × HasCome N a all old.now plan.now past from most first meter course.now live.old }
    ensures rising { course.now.at ≤ result }
    ensures inside { result ≤ length old.now.moves }
    ensures passed { (a : PlanData) (all past : List Move) (from most first meter : ℕ)
        → HasCome N a all old.now plan.now past from most first meter course.now live.old
        → HasCome N a all old.now plan.now past from most first meter (followed_to course.now old.now.moves result) live.new }
    ensures go { (i : ℕ) (k : KeptData) → course.now.at ≤ i → i < result → (slice_index_or old.now.moves i k).before
        ≡ left_by course.now.span.first (course.now.span.moves ++ moves_from old.now.moves course.now.at (i - course.now.at))
        ((slice_index_or old.now.moves i k).port - 1) }
    ensures dues { live.new.dues ≡ live.old.dues }
    ensures stops { (brief : BriefData) → IsFirstFollowed old.now.moves course.now.away result own.now brief → brief.stirs ≡ true }
{
    let _len = old.len();
    let mut at = course.at;
    while let Some(brief) = first_followed(old, at, &course.away, own) {
        if !passes(old, at, &brief, course.same_holds, plan, live) {
            return at;
        }
        at += 1;
    }
    at
}

// The brief of a move, if its port follows, and it comes before what is next on the other ports.
fn first_followed(
    old: &KeptMoves,
    at: usize,
    away: &[bool; 8],
    own: &Option<(usize, Due)>,
) -> Option<Brief>
    requires few { (i : ℕ) (k : KeptData) → i < length old.now.moves
        → (1 ≤ (slice_index_or old.now.moves i k).port) × ((slice_index_or old.now.moves i k).port ≤ 8) }
    ensures some { IfSome result (λ brief. IsFirstFollowed old.now.moves away.now at own.now brief) }
    ensures none { IfNone result ((brief : BriefData) → IsFirstFollowed old.now.moves away.now at own.now brief → ⊥) }
{
    if comes_first(old, at, own) {
        let brief = old.brief(at);
        if follows(away, &brief) {
            return Some(brief);
        }
    }
    None
}

// Whether a move's answer is known, and its port's hold stays: it stirs nothing, or all ports hold as much as in the older run.
fn is_known(brief: &Brief, same_holds: bool) -> bool
    ensures { IsTrue result ↔ ((brief.now.stirs ≡ false) ⊎ (IsTrue same_holds × (brief.now.keeps_hold ≡ true))) }
{
    !brief.stirs || same_holds && brief.keeps_hold
}

// A port that follows moves as in the older run, where its move stirs nothing, or has the answer that the shared budget gives. Where all
// ports hold as much as in the older run it has, and isn't asked again.
fn passes<const N: usize>(
    old: &KeptMoves,
    at: usize,
    brief: &Brief,
    same_holds: bool,
    plan: &Plan<N>,
    live: &mut Live<N>,
) -> bool
    requires inside { at < length old.now.moves }
    requires brief { (k : KeptData) → IsBrief (slice_index_or old.now.moves at k) brief.now }
    requires passing { (past : List Move) × (away : List Bool) × (whole : LiveData) × ((k : KeptData)
        → IsPassing plan.now past away whole live.old (slice_index_or old.now.moves at k)) }
    ensures passed { IsTrue result → (past : List Move) (away : List Bool) (whole : LiveData) (k : KeptData)
        → IsPassing plan.now past away whole live.old (slice_index_or old.now.moves at k)
        → (IsTrue same_holds → IsAnswered plan.now past (move_of (slice_index_or old.now.moves at k)))
        → HasPassed plan.now past away whole live.new (slice_index_or old.now.moves at k) }
    ensures ports { live.new.ports ≡ live.old.ports }
    ensures dues { live.new.dues ≡ live.old.dues }
    ensures other { IsFalse result → (k : KeptData)
        → live.new ≡ at_budget live.old (force plan.now (slice_index_or old.now.moves at k).due.time) }
    ensures stirs { IsFalse result → brief.now.stirs ≡ true }
{
    let _end = plan.end();
    if is_known(brief, same_holds) {
        live.pass(brief.port, brief.is_event);
        return true;
    }
    let kept = old.kept(at);
    live.follow(plan, kept.port(), kept.entry(), kept.answer(), kept.left())
}

// The move of a port that doesn't follow, which is the next one where all ports stand. What is next on such ports then.
#[inline(always)]
fn move_own<const N: usize>(
    alloc: Global,
    old: &KeptMoves,
    course: &mut Course,
    plan: &Plan<N>,
    live: &mut Live<N>,
    port: usize,
    due: Due,
    meter: &mut Meter,
) -> Result<Option<(usize, Due)>, AllocError>
    requires made { All IsMade old.now.moves }
    requires next { (a : PlanData) × (all : List Move) × (past : List Move) × (from : ℕ) × (most : ℕ) × (first : ℕ)
        × IsOwnTurn N a all old.now plan.now past from most first meter.old course.old live.old port due }
    ensures came { OnOk result ((a : PlanData) (all : List Move) (past : List Move) (from most first : ℕ)
        → IsOwnTurn N a all old.now plan.now past from most first meter.old course.old live.old port due
        → HasCameOn N a all old.now plan.now past from most first meter.new course.new live.new (length course.old.span.moves)) }
    ensures next { IfOk result (λ own. IsOwnNext plan.now live.new old.now.to own) }
    ensures rises { meter.old ≤ meter.new }
{
    let held = live.hold(port);
    let asked = live.reply_beside(plan, port, &due);
    course.from = seek(old, course.from, &Rank::of(port, &due));
    let (kept, marks, place) = make(
        alloc,
        old,
        course.from,
        course.places[port - 1],
        plan,
        live,
        port,
        due,
        asked,
        meter,
    )?;
    course.span.push(port, kept, marks)?;
    course.places[port - 1] = place;
    course.same_holds = course.same_holds && live.hold(port) == held;
    Ok(next_before(live, plan, old.to()))
}

// A port that followed is answered otherwise than in the older run: from here on it moves for itself. What is next on such ports then.
fn leave<const N: usize>(
    alloc: Global,
    old: &KeptMoves,
    course: &mut Course,
    plan: &Plan<N>,
    live: &mut Live<N>,
    meter: &mut Meter,
) -> Result<Option<(usize, Due)>, AllocError>
    requires made { All IsMade old.now.moves }
    requires inside { course.old.at < length old.now.moves }
    requires next { (a : PlanData) × (all : List Move) × (past : List Move) × (from : ℕ) × (most : ℕ) × (first : ℕ)
        × IsFollowedTurn N a all old.now plan.now past from most first meter.old course.old live.old }
    ensures came { OnOk result ((a : PlanData) (all : List Move) (past : List Move) (from most first : ℕ)
        → IsFollowedTurn N a all old.now plan.now past from most first meter.old course.old live.old
        → HasCameOn N a all old.now plan.now past from most first meter.new course.new live.new (length course.old.span.moves)) }
    ensures next { IfOk result (λ own. IsOwnNext plan.now live.new old.now.to own) }
    ensures rises { meter.old ≤ meter.new }
{
    let kept = old.kept(course.at);
    let port = kept.port();
    let due = kept.entry().due;
    live.take_up(plan, port, kept.before().share()?);
    course.away[port - 1] = false;
    course.places[port - 1] = Some(old.place_before(course.at));
    move_own(alloc, old, course, plan, live, port, due, meter)
}

// The next move of the span, if there is one, where the old run has the next move of a port that follows at this place, and that isn't
// answered as before or comes later.
fn turn_at<const N: usize>(
    alloc: Global,
    old: &KeptMoves,
    course: &mut Course,
    plan: &Plan<N>,
    live: &mut Live<N>,
    own: &mut Option<(usize, Due)>,
    meter: &mut Meter,
) -> Result<bool, AllocError>
    requires made { All IsMade old.now.moves }
    requires numbered { AreNumbered N old.now.moves }
    requires here { IsNextFollowed old.now.moves course.old.away course.old.at course.old.at }
    requires own { IsOwnNext plan.now live.old old.now.to own.old }
    requires come { (a : PlanData) × (all : List Move) × (past : List Move) × (from : ℕ) × (most : ℕ) × (first : ℕ)
        × HasCome N a all old.now plan.now past from most first meter.old course.old live.old }
    ensures came { IfOk result (λ more. IsTrue more → (a : PlanData) (all : List Move) (past : List Move) (from most first : ℕ)
        → HasCome N a all old.now plan.now past from most first meter.old course.old live.old
        → HasCameOn N a all old.now plan.now past from most first meter.new course.new live.new (length course.old.span.moves)) }
    ensures through { IfOk result (λ more. IsFalse more → (a : PlanData) (all : List Move) (past : List Move) (from most first : ℕ)
        → HasCome N a all old.now plan.now past from most first meter.old course.old live.old
        → IsThrough N a all old.now plan.now past from most first meter.new course.new live.new) }
    ensures own { IfOk result (λ more. IsTrue more → IsOwnNext plan.now live.new old.now.to own.new) }
    ensures rises { meter.old ≤ meter.new }
{
    let (_end, _len) = (plan.end(), old.len());
    if comes_first(old, course.at, own) {
        *own = leave(alloc, old, course, plan, live, meter)?;
        return Ok(true);
    }
    let Some((port, due)) = *own else {
        return Ok(false);
    };
    *own = move_own(alloc, old, course, plan, live, port, due, meter)?;
    Ok(true)
}

// The next moves of the span, if there are any, beside what is next on the ports that don't follow.
fn turn<const N: usize>(
    alloc: Global,
    old: &KeptMoves,
    course: &mut Course,
    plan: &Plan<N>,
    live: &mut Live<N>,
    own: &mut Option<(usize, Due)>,
    meter: &mut Meter,
) -> Result<bool, AllocError>
    requires made { All IsMade old.now.moves }
    requires numbered { AreNumbered N old.now.moves }
    requires own { IsOwnNext plan.now live.old old.now.to own.old }
    requires come { (a : PlanData) × (all : List Move) × (past : List Move) × (from : ℕ) × (most : ℕ) × (first : ℕ)
        × HasCome N a all old.now plan.now past from most first meter.old course.old live.old }
    ensures came { IfOk result (λ more. IsTrue more → (a : PlanData) (all : List Move) (past : List Move) (from most first : ℕ)
        → HasCome N a all old.now plan.now past from most first meter.old course.old live.old
        → HasCameOn N a all old.now plan.now past from most first meter.new course.new live.new (length course.old.span.moves)) }
    ensures through { IfOk result (λ more. IsFalse more → (a : PlanData) (all : List Move) (past : List Move) (from most first : ℕ)
        → HasCome N a all old.now plan.now past from most first meter.old course.old live.old
        → IsThrough N a all old.now plan.now past from most first meter.new course.new live.new) }
    ensures own { IfOk result (λ more. IsTrue more → IsOwnNext plan.now live.new old.now.to own.new) }
    ensures rises { meter.old ≤ meter.new }
{
    let (_end, _len) = (plan.end(), old.len());
    pass_over(old, course);
    let passed = pass_on(old, course, plan, live, own);
    if passed > course.at {
        course.span.push_all_again(old, course.at, passed)?;
        course.at = passed;
        return Ok(true);
    }
    turn_at(alloc, old, course, plan, live, own, meter)
}

// Whether each port holds as much as at the beginning of a span. Those that are marked stand as there.
fn hold_alike<const N: usize>(old: &KeptMoves, alike: &[bool; 8], live: &Live<N>) -> bool
    requires few { N ≤ 8 }
    requires count { length old.now.first ≡ N }
    ensures { IsTrue result ↔ ((p : ℕ) → p < N → slice_index_or alike.now p false ≡ false
        → held_by (slice_index_or old.now.first p no_port) ≡ held_by (port_at live.now p)) }
{
    for port in 0..N {
        if !alike[port] && old.first_hold(port) != live.hold(port + 1) {
            return false;
        }
    }
    true
}

// From here on these ports follow.
fn set_aside<const N: usize>(live: &mut Live<N>, away: &[bool; 8])
    requires few { N ≤ 8 }
    ensures { (plan : PlanData) (past : List Move) → count plan ≡ N → StandsAfter plan past live.old
        → StandsBut plan past away.now live.old live.new }
{
    for port in 0..N {
        if away[port] {
            live.set_aside(port + 1);
        }
    }
}

// The ports that have followed to the end of the span stand as it leaves them.
fn take_up<const N: usize>(
    old: &KeptMoves,
    away: &[bool; 8],
    plan: &Plan<N>,
    live: &mut Live<N>,
) -> Result<(), AllocError>
    requires few { N ≤ 8 }
    requires count { length old.now.first ≡ N }
    ensures { OnOk result ((past : List Move) (whole : LiveData) → StandsBut plan.now past away.now whole live.old
        → ((p : ℕ) → p < N → IsAway away.now p → left_by old.now.first old.now.moves p ≡ port_at whole p)
        → StandsAfter plan.now past live.new) }
{
    let _end = plan.end();
    for port in 0..N {
        if away[port] {
            live.take_up(plan, port + 1, old.last_port(port)?);
        }
    }
    Ok(())
}

// The beginning of a span, where the ports that are marked follow.
fn begun(alike: &[bool; 8], same_holds: bool, span: KeptMoves) -> Course
    ensures { result ≡ record {
      at = 0;
      from = 0;
      same_holds = same_holds;
      away = alike.now;
      places = replicate 8 None;
      span = span;
    } }
{
    Course {
        at: 0,
        from: 0,
        same_holds,
        away: *alike,
        places: [None; 8],
        span,
    }
}

/// The moves of a run up to the end of an older one's span, through which the ports that are marked follow it; both plans may be known to
/// share alike in it. Which ports are known to stand then as the older run's. The meter rises by the moves that the older one doesn't have.
///
/// # Errors
/// There is no memory. The ports stand anywhere.
pub fn follow_span<const N: usize>(
    alloc: Global,
    lists: SpareLists,
    old: &KeptMoves,
    alike: &[bool; 8],
    share: bool,
    plan: &Plan<N>,
    live: &mut Live<N>,
    meter: &mut Meter,
) -> Result<(KeptMoves, [bool; 8]), AllocError>
    requires made { All IsMade old.now.moves }
    requires numbered { AreNumbered N old.now.moves }
    requires follows { (a : PlanData) × (all : List Move) × (past : List Move) × (from : ℕ)
        × CanFollow N a all old.now plan.now past from alike.now share live.old }
    ensures span { IfOk result (λ r. (a : PlanData) (all past : List Move) (from : ℕ)
        → CanFollow N a all old.now plan.now past from alike.now share live.old
        → IsNextSpan N plan.now past from r.0 × (r.0.to ≡ old.now.to)) }
    ensures stands { IfOk result (λ r. (a : PlanData) (all past : List Move) (from : ℕ)
        → CanFollow N a all old.now plan.now past from alike.now share live.old
        → StandsAfter plan.now (past ++ map move_of r.0.moves) live.new) }
    ensures known { IfOk result (λ r. StandAs N r.1 live.new (left_by old.now.first old.now.moves)) }
    ensures cost { IfOk result (λ r. (a : PlanData) (all : List Move) (past : List Move) (from : ℕ) (olds : List KeptData)
        → CanFollow N a all old.now plan.now past from alike.now share live.old → All (IsOwn a) olds
        → AreThose olds from old.now.to old.now.moves
        → Costs a (map move_of olds) plan.now (map move_of r.0.moves) meter.old meter.new) }
    ensures rises { meter.old ≤ meter.new }
{
    let (_end, _count) = (plan.end(), meter.count());
    let span = KeptMoves::in_lists(lists, live.ports(alloc)?, old.shareable()?)?;
    let same_holds = share && hold_alike(old, alike, live);
    set_aside(live, alike);
    let mut course = begun(alike, same_holds, span);
    let mut own = next_before(live, plan, old.to());
    while turn(alloc, old, &mut course, plan, live, &mut own, meter)? {}
    take_up(old, &course.away, plan, live)?;
    let alike = stand_alike(old, &course.away, &course.places);
    Ok((course.span.ended(old.to()), alike))
}

// Which ports are known to stand as the span leaves them: those that have followed it, and those that stand at a last place.
fn stand_alike(old: &KeptMoves, away: &[bool; 8], places: &[Option<Place>; 8]) -> [bool; 8]
    ensures { (p : ℕ) → p < 8 → slice_index_or result p false ≡ true
        → IsAway away.now p ⊎ ((x : PortData) → IsKnown old.now.first old.now.moves p (slice_index_or places.now p None) x
        → x ≡ left_by old.now.first old.now.moves p) }
{
    let mut alike = [false; 8];
    for port in 0..8 {
        alike[port] = away[port] || old.leaves(port, places[port]);
    }
    alike
}
