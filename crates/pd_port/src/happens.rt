//! What each event does to a port.

ghost use Rattle.std.specs.Prelude.{◌≡◌, ℕ, ◌<◌, ◌≤◌, length};
ghost use Rattle.pd_port.specs.Happens.{detaches, disturbs, gets_source, gets_sink, happens_attached, happens_detached};
ghost use Rattle.pd_port.specs.Happens.{port_event_happens, budget_changes, event_happens};

use crate::{EventKind, Happening, PortEventKind};
use pd_line::Fault;
use pd_line::stepping::{Disturbance, PortParts, PortStep};
use pd_objects::Answer;
use pd_sink::Stimulus as SinkStimulus;
use pd_source::Stimulus as SourceStimulus;
use pd_timers::LAST_TIME;

/// The cable is pulled out.
#[tactic(auto, unfolding(crate::specs::Happens::detaches))]
fn detaches(step: &mut PortStep)
    ensures { step.new ≡ detaches step.old }
{
    let source = &step.port.source;
    step.port = PortParts::new(
        source.supplies(),
        source.identity_tries(),
        source.unconstrained(),
    );
}

/// A disturbance waits for a packet.
#[tactic(auto, unfolding(crate::specs::Happens::disturbs))]
fn disturbs(step: &mut PortStep, id: u32, disturbance: Disturbance)
    requires { length step.old.faults.items ≡ 0 }
    ensures { step.new ≡ disturbs id disturbance step.old }
{
    if step.port.disturbances.is_full() {
        step.note(Fault::Ignored { id });
    } else {
        step.port.disturbances.push(disturbance);
    }
}

/// The sink is to ask for the source's capabilities.
#[tactic(auto, unfolding(crate::specs::Happens::gets_source))]
fn gets_source(step: &mut PortStep, id: u32, t: u64)
    requires time { t ≤ LAST_TIME }
    requires room { length step.old.faults.items ≡ 0 }
    ensures { step.new ≡ gets_source id t step.old }
{
    if step.port.sink.ready() {
        step.sink_steps(t, &SinkStimulus::GetSource);
    } else {
        step.note(Fault::Ignored { id });
    }
}

/// The source is to ask for the sink's capabilities.
#[tactic(auto, unfolding(crate::specs::Happens::gets_sink))]
fn gets_sink(step: &mut PortStep, id: u32, t: u64)
    requires time { t ≤ LAST_TIME }
    requires room { length step.old.faults.items ≡ 0 }
    ensures { step.new ≡ gets_sink id t step.old }
{
    if step.port.source.ready() {
        step.source_steps(t, &SourceStimulus::GetSink);
    } else {
        step.note(Fault::Ignored { id });
    }
}

/// An event while a sink is attached.
fn happens_attached(step: &mut PortStep, id: u32, kind: &PortEventKind, t: u64)
    requires time { t ≤ LAST_TIME }
    requires room { length step.old.faults.items ≡ 0 }
    ensures { step.new ≡ happens_attached id kind.now t step.old }
{
    match kind {
        EventKind::Attach { .. } => step.note(Fault::Ignored { id }),
        EventKind::Detach => detaches(step),
        EventKind::Demand(demand) => step.sink_steps(t, &SinkStimulus::Demand(*demand)),
        EventKind::Lose => disturbs(step, id, Disturbance::Lost),
        EventKind::Damage(damage) => disturbs(step, id, Disturbance::Damaged(*damage)),
        EventKind::GetSource => gets_source(step, id, t),
        EventKind::GetSink => gets_sink(step, id, t),
    }
}

/// An event while nothing is attached.
fn happens_detached(step: &mut PortStep, id: u32, kind: &PortEventKind, t: u64)
    requires time { t ≤ LAST_TIME }
    requires room { length step.old.faults.items ≡ 0 }
    ensures { step.new ≡ happens_detached id kind.now t step.old }
{
    match kind {
        EventKind::Attach { cable, sink } => step.tell_attach(*cable, *sink, t),
        _ => step.note(Fault::Ignored { id }),
    }
}

/// An event of the port.
fn port_event_happens(step: &mut PortStep, id: u32, kind: &PortEventKind, t: u64)
    requires time { t ≤ LAST_TIME }
    requires room { length step.old.faults.items ≡ 0 }
    ensures { step.new ≡ port_event_happens id kind.now t step.old }
{
    if step.port.cable.is_some() {
        happens_attached(step, id, kind, t);
    } else {
        happens_detached(step, id, kind, t);
    }
}

/// The shared budget has changed: the answer is whether the port's hold may stay.
#[tactic(auto, unfolding(crate::specs::Happens::budget_changes))]
fn budget_changes(step: &mut PortStep, t: u64)
    requires time { t ≤ LAST_TIME }
    requires room { length step.old.faults.items ≡ 0 }
    ensures { step.new ≡ budget_changes t step.old }
{
    if let Some(Answer::Fits(false)) = step.answer.take() {
        step.source_steps(t, &SourceStimulus::Shed);
    }
}

/// What an event does.
pub(crate) fn event_happens(step: &mut PortStep, happening: &Happening, t: u64)
    requires time { t ≤ LAST_TIME }
    requires room { length step.old.faults.items ≡ 0 }
    ensures { step.new ≡ event_happens happening.now t step.old }
{
    match happening {
        Happening::Port { id, kind } => port_event_happens(step, *id, kind, t),
        Happening::Budget => budget_changes(step, t),
    }
}
