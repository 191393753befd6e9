//! What is looked at of a move.

ghost use Rattle.std.specs.Prelude.{◌≡◌, ℕ, ◌+◌, ◌-◌, ◌∷◌, ◌++◌, ◌<◌, ◌≤◌, [], List, IfOk, OnOk, option_map, max};
ghost use Rattle.pd_objects.specs.declared.query.Answer.{Answer as AnswerData};
ghost use Rattle.arrayvec.specs.ArrayVec.{array_vec_len};
ghost use Rattle.pd_port.specs.Meter.{raised};
ghost use Rattle.pd_run.specs.Live.{IsNext, StandsAfter, next_move, port_at};
ghost use Rattle.pd_run.specs.Run.{Move};
ghost use Rattle.pd_run.specs.StepsLeft.{steps_left};
ghost use Rattle.pd_scenario.specs.Plan.{IsPlan, force, count};
ghost use Rattle.pd_why.specs.Holds.{hold_beside, left_of, other, others};
ghost use Rattle.pd_why.specs.Looks.{look_of, share_at, stood_at};

use crate::cable::{CableLimit, learnt, learnt_by};
use crate::holder::{Holder, holds_of};
use crate::wish::{Wish, asks_in, is_again, wish_of};
use arrayvec::ArrayVec;
use pd_objects::Answer;
use pd_port::{Due, Entry, Meter, Port};
use pd_run::{Live, Plan};
use pd_sink::State as SinkState;
use pd_source::State;
use std::alloc::{AllocError, Global};

/// The budget that ports share, what is free of it to a port, and what the other ports hold, all in microwatts.
#[derive(Drop)]
pub struct Share {
    pub budget: u64,
    pub free: u64,
    pub others: ArrayVec<Holder, 8>,
}

/// A move of a port, numbered from 1: how often the port asks its cable, its floor in microwatts, the state of its source after it, how
/// the source has learnt its cable's limit in it, whether the sink sends a Request in it, and by what it would choose then, whether what
/// starts is a Request once more, the move's entry, the answer to what it asked, and how the budget was shared.
#[derive(Drop)]
pub struct Look {
    pub port: usize,
    pub tries: u8,
    pub floor: u64,
    pub after: State,
    pub learnt: Option<CableLimit>,
    pub asks: bool,
    pub wish: Option<Wish>,
    pub again: bool,
    pub entry: Entry,
    pub answer: Option<Answer>,
    pub share: Option<Share>,
}

/// Adds what a port holds, where it is beside this one.
fn push_other<const N: usize>(
    others: &mut ArrayVec<Holder, 8>,
    live: &Live<N>,
    port: usize,
    number: usize,
)
    requires room { array_vec_len others.old < 8 }
    requires first { 1 ≤ port }
    requires known { number < N }
    ensures { others.new.items ≡ others.old.items ++ other (port_at live.now) (port - 1) number }
{
    if number != port - 1 {
        others.push(holds_of(number + 1, live.port(number + 1)));
    }
}

/// What the ports but this one hold.
fn others<const N: usize>(live: &Live<N>, port: usize) -> ArrayVec<Holder, 8>
    requires few { N ≤ 8 }
    requires first { 1 ≤ port }
    ensures { result.items ≡ others (port_at live.now) (port - 1) N }
{
    let mut others = ArrayVec::new();
    for number in 0..N {
        push_other(&mut others, live, port, number);
    }
    others
}

/// What a port holds, where it is beside this one.
fn hold_beside<const N: usize>(live: &Live<N>, port: usize, number: usize) -> u64
    requires first { 1 ≤ port }
    requires known { number < N }
    ensures { result ≡ hold_beside (port_at live.now) (port - 1) number }
{
    if number == port - 1 {
        return 0;
    }
    live.port(number + 1).hold()
}

/// A budget less what the ports but this one hold.
fn left<const N: usize>(live: &Live<N>, port: usize, budget: u64) -> u64
    requires { 1 ≤ port }
    ensures { result ≡ left_of budget (port_at live.now) (port - 1) N }
{
    let mut left = budget;
    for number in 0..N {
        left = left.saturating_sub(hold_beside(live, port, number));
    }
    left
}

/// How the budget is shared at a time.
fn shared_at<const N: usize>(plan: &Plan<N>, live: &Live<N>, port: usize, at: u64) -> Share
    requires first { 1 ≤ port }
    requires last { port ≤ N }
    ensures { (past : List Move) → StandsAfter plan.now past live.now → result ≡ share_at plan.now past (port - 1) at }
{
    let budget = plan.force(at);
    let floor = u64::from(plan.settings(port).floor_mw()) * 1_000;
    let unheld = left(live, port, budget);
    let free = unheld.max(floor);
    let others = others(live, port);
    Share {
        budget,
        free,
        others,
    }
}

/// How the budget is shared at a time, where it is asked.
fn share_if<const N: usize>(
    plan: &Plan<N>,
    live: &Live<N>,
    port: usize,
    at: u64,
    answer: &Option<Answer>,
) -> Option<Share>
    requires first { 1 ≤ port }
    requires last { port ≤ N }
    ensures { (past : List Move) → StandsAfter plan.now past live.now
        → result ≡ option_map (λ (a : AnswerData). share_at plan.now past (port - 1) at) answer.now }
{
    match answer {
        None => None,
        Some(_) => Some(shared_at(plan, live, port, at)),
    }
}

/// A copy of an answer.
fn copy_answer(answer: &Option<Answer>) -> Option<Answer>
    ensures { result ≡ answer.now }
{
    match answer {
        None => None,
        Some(answer) => Some(answer.copy()),
    }
}

/// What is looked at of a port before its step.
#[derive(Clone, Copy)]
struct Stood {
    source: State,
    sink: SinkState,
    how: CableLimit,
    again: bool,
}

/// What is looked at of a port before its step for what falls due.
fn stood_at(port: &Port, due: &Due) -> Stood
    ensures { result ≡ stood_at port.now.port_record due.now }
{
    Stood {
        source: port.source_state(),
        sink: port.sink_state(),
        how: learnt_by(&due.what, port.line()),
        again: is_again(&due.what, port.line()),
    }
}

/// Steps the port that moves next, for what falls due, and tells what is looked at of that move.
///
/// # Errors
/// There is no memory.
pub(crate) fn step_look<const N: usize>(
    alloc: Global,
    plan: &Plan<N>,
    live: &mut Live<N>,
    port: usize,
    due: &Due,
    meter: &mut Meter,
) -> Result<Look, AllocError>
    requires plan { IsPlan N plan.now }
    requires stands { (past : List Move) × StandsAfter plan.now past live.old }
    requires next { IsNext plan.now live.old port due.now }
    ensures look { IfOk result (λ look. (past : List Move) → StandsAfter plan.now past live.old
        → look ≡ look_of plan.now past (next_move plan.now past (port - 1) due.now)) }
    ensures stands { OnOk result ((past : List Move) → StandsAfter plan.now past live.old
        → StandsAfter plan.now (past ++ next_move plan.now past (port - 1) due.now ∷ []) live.new) }
    ensures less { OnOk result (steps_left plan.now live.new < steps_left plan.now live.old) }
    ensures meter { OnOk result (meter.new ≡ raised meter.old 1) }
{
    let settings = plan.settings(port);
    let tries = settings.identity_tries();
    let floor = u64::from(settings.floor_mw()) * 1_000;
    let stood = stood_at(live.port(port), due);
    let answer = live.reply(plan, port, due);
    let share = share_if(plan, live, port, due.time, &answer);
    let entry = live.step(alloc, plan, port, due, copy_answer(&answer), meter)?;
    let stands = live.port(port);
    Ok(Look {
        port,
        tries,
        floor,
        after: stands.source_state(),
        learnt: learnt(stood.source, stands.source_state(), stood.how),
        asks: asks_in(stood.sink, stands.sink_state()),
        wish: wish_of(stands),
        again: stood.again,
        entry,
        answer,
        share,
    })
}
