//! What is seen of a move.

ghost use Rattle.std.specs.Prelude.{◌≡◌, ◌-◌, ◌∷◌, ◌++◌, ◌<◌, ◌≤◌, [], List, IfOk, OnOk, length};
ghost use Rattle.pd_run.specs.Live.{IsNext, StandsAfter, next_move};
ghost use Rattle.pd_run.specs.Run.{Move, shown};
ghost use Rattle.pd_run.specs.StepsLeft.{steps_left};
ghost use Rattle.pd_scenario.specs.Plan.{IsPlan};
ghost use Rattle.pd_watch.specs.Watch.{after_step, disturber_of, id_of, watch_at};
ghost use Rattle.pd_show.specs.Seen.{glance, seen_of};

use pd_objects::Answer;
use pd_port::{Due, Entry, Meter, Port};
use pd_run::{Live, Plan};
use pd_sink::State as SinkState;
use pd_source::State as SourceState;
use pd_watch::Watch;
use std::alloc::{AllocError, Global};

/// What is seen of a port between its moves: what it holds of the shared budget, in microwatts, whether it has a contract, and
/// the states that its source and its sink are in.
#[derive(Clone, Copy, Debug)]
pub struct Glance {
    pub hold: u64,
    pub contract: bool,
    pub source: SourceState,
    pub sink: SinkState,
}

/// What is seen of a move: its port, numbered from 1, the shared budget then, in microwatts, the port before and after it,
/// its entry, the answer to what the port asked, and the event whose disturbance the packet takes that it starts, by its id,
/// where that is lost or damaged.
#[derive(Drop)]
pub struct Seen {
    pub port: usize,
    pub budget: u64,
    pub before: Glance,
    pub after: Glance,
    pub entry: Entry,
    pub answer: Option<Answer>,
    pub by: Option<u32>,
}

/// What is seen of a port.
fn glimpse(port: &Port) -> Glance
    ensures { result ≡ glance port.now.settings port.now.port_record }
{
    Glance {
        hold: port.hold(),
        contract: port.contract().is_some(),
        source: port.source_state(),
        sink: port.sink_state(),
    }
}

/// A copy of an answer.
fn copy_answer(answer: &Option<Answer>) -> Option<Answer>
    ensures { result ≡ answer.now }
{
    match answer {
        None => None,
        Some(answer) => Some(answer.copy()),
    }
}

/// Takes in a step of a port, and tells the event whose disturbance the packet takes that it starts, by its id.
#[tactic(auto, unfolding(pd_watch::specs::Watch::after_step))]
fn take_step(
    watches: &mut Vec<Watch>,
    port: usize,
    entry: &Entry,
) -> Result<Option<u32>, AllocError>
    requires first { 1 ≤ port }
    requires last { port ≤ length watches.old.items }
    ensures by { IfOk result (λ by. by ≡ id_of (disturber_of (watch_at watches.old.items port) entry.now)) }
    ensures after { OnOk result (watches.new.items ≡ after_step watches.old.items (port, entry.now)) }
{
    watches[port - 1].take_entry(entry)
}

/// Steps the port that moves next, for what falls due, watches it, and tells what is seen of that move.
///
/// # Errors
/// There is no memory.
pub fn step_seen<const N: usize>(
    alloc: Global,
    plan: &Plan<N>,
    live: &mut Live<N>,
    watches: &mut Vec<Watch>,
    port: usize,
    due: &Due,
    meter: &mut Meter,
) -> Result<Seen, AllocError>
    requires plan { IsPlan N plan.now }
    requires stands { (past : List Move) × StandsAfter plan.now past live.old }
    requires next { IsNext plan.now live.old port due.now }
    requires watched { port ≤ length watches.old.items }
    ensures seen { IfOk result (λ seen. (past : List Move) → StandsAfter plan.now past live.old
        → seen ≡ seen_of plan.now watches.old.items (next_move plan.now past (port - 1) due.now)) }
    ensures watched { OnOk result ((past : List Move) → StandsAfter plan.now past live.old
        → watches.new.items ≡ after_step watches.old.items (shown (next_move plan.now past (port - 1) due.now))) }
    ensures stands { OnOk result ((past : List Move) → StandsAfter plan.now past live.old
        → StandsAfter plan.now (past ++ next_move plan.now past (port - 1) due.now ∷ []) live.new) }
    ensures less { OnOk result (steps_left plan.now live.new < steps_left plan.now live.old) }
{
    let before = glimpse(live.port(port));
    let answer = live.reply(plan, port, due);
    let entry = live.step(alloc, plan, port, due, copy_answer(&answer), meter)?;
    let by = take_step(watches, port, &entry)?;
    let after = glimpse(live.port(port));
    Ok(Seen {
        port,
        budget: plan.force(due.time),
        before,
        after,
        entry,
        answer,
        by,
    })
}
