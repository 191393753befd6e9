//! A port: what falls due on it, and its step.

ghost use Rattle.std.specs.Prelude.{◌≡◌, ℕ, ◌+◌, ◌<◌, ◌≤◌, length, None, is_some, IsTrue, ◌↔◌, true};
ghost use Rattle.std.specs.Option.{option_copied};
ghost use Rattle.pd_line.specs.Record.{without_settings};
ghost use Rattle.pd_line.specs.declared.port_step.PortStep.{PortStep};
ghost use Rattle.pd_port.specs.OwnDue.{told_due};
ghost use Rattle.pd_port.specs.Port.{due as the_due, detached, happens, portstep, whole};

use crate::asks::{is_budget, source_told};
use crate::dues::{due_of_event, earlier_of};
use crate::entry::change_of;
use crate::happens::event_happens;
use crate::own_due::{earlier_own_due, own_due_of_line, own_due_of_timer};
use crate::polls::{is_poll, polls_again};
use crate::{Due, Entry, Event, Meter, OwnDue, Settings, What};
use arrayvec::ArrayVec;
use pd_header::Side;
use pd_line::stepping::{Line, PortParts, PortStep};
use pd_objects::{Answer, Contract, Query};
use pd_setup::SinkSettings;
use pd_sink::State as SinkState;
use pd_source::State as SourceState;
use pd_symbols::copied;
use pd_timers::LAST_TIME;
use std::marker::Model;

/// One port of a charger, with what it is set to: its source has all of that but the floor.
#[derive(Clone, Copy)]
pub struct Port {
    floor_mw: u32,
    parts: PortParts,
}

impl Model for Port {
    ghost use Rattle.pd_line.specs.Record.{without_settings};
    ghost use Rattle.pd_setup.specs.Settings.{IsSettings};
    ghost use Rattle.pd_port.specs.Port.{PortData, settings_of, whole};

    ghost Value = { PortData };

    ghost view = { λ p. record { settings = settings_of p.floor_mw p.parts; port_record = without_settings p.parts } };

    ghost invariant = { λ p. IsSettings (settings_of p.floor_mw p.parts) };

    ghost inverse = { λ v. record { floor_mw = v.settings.floor_mw; parts = whole v.settings v.port_record } };
}

/// The earliest of the line's end and each engine's first timer.
#[tactic(auto, unfolding(crate::specs::Port::due))]
fn own_due_of(port: &PortParts) -> OwnDue
    ensures { told_due result ≡ the_due (without_settings port.now) None }
{
    let plug = own_due_of_timer(Side::Plug, port.plug.first());
    let sink = own_due_of_timer(Side::Sink, port.sink.first());
    let source = own_due_of_timer(Side::Source, port.source.first());
    let timers = earlier_own_due(source, earlier_own_due(sink, plug));
    earlier_own_due(own_due_of_line(&port.line), timers)
}

/// A step that begins is given an answer, where there is any: most steps have none, and then nothing is copied.
fn give(step: &mut PortStep, answer: &Option<Answer>)
    requires { step.old.answer ≡ None }
    ensures { step.new ≡ record step.old { answer = answer.now } }
{
    if let Some(answer) = answer {
        step.answer = Some(answer.copy());
    }
}

/// What falls due happens.
fn happens(step: &mut PortStep, what: &What, t: u64)
    requires time { t ≤ LAST_TIME }
    requires room { length step.old.faults.items ≡ 0 }
    ensures { step.new ≡ happens what.now t step.old }
{
    match what {
        What::Event(event) => event_happens(step, &event.happening(), t),
        What::Line => step.line_ends(t),
        What::Timer { side, timer } => step.tell_timer(*side, *timer, t),
    }
}

// The parts of a port to which nothing is attached.
#[tactic(auto, unfolding(crate::specs::Port::detached))]
fn parts_at_rest(settings: &Settings) -> PortParts
    ensures { result ≡ whole settings.now (detached settings.now) }
{
    PortParts::new(
        settings.supplies(),
        settings.identity_tries(),
        settings.unconstrained(),
    )
}

/// The parts become the others, where they aren't yet.
fn stand_as(parts: &mut PortParts, others: &PortParts, stands: bool)
    requires { stands ≡ true → parts.old ≡ others.now }
    ensures { parts.new ≡ others.now }
{
    if !stands {
        *parts = *others;
    }
}

/// The parts, which may stand as a port's already, become what its step for this due leaves; its faults and what it starts are put in an
/// entry.
#[tactic(auto, unfolding(crate::specs::Port::portstep))]
fn step_parts(
    parts: &mut PortParts,
    before: &PortParts,
    stands: bool,
    due: &Due,
    answer: &Option<Answer>,
    entry: &mut Entry,
)
    requires time { due.now.time ≤ LAST_TIME }
    requires stands { stands ≡ true → parts.old ≡ before.now }
    ensures parts { parts.new ≡ (portstep before.now due.now answer.now).port }
    ensures entry { let u : PortStep = portstep before.now due.now answer.now in
        entry.new ≡ record entry.old { faults = u.faults; start = u.start } }
{
    if is_poll(due) {
        stand_as(parts, before, stands);
        if polls_again(parts, due, answer) {
            entry.faults = ArrayVec::new();
            entry.start = None;
            return;
        }
    }
    let mut step = PortStep::at_rest(before);
    give(&mut step, answer);
    happens(&mut step, &due.what, due.time);
    step.line_starts(due.time);
    *parts = step.port;
    entry.faults = step.faults;
    entry.start = step.start;
}

impl Port {
    ghost use Rattle.pd_port.specs.Meter.{raised};
    ghost use Rattle.pd_port.specs.Port.{detached, due as the_due, ask, record_after, entry_of, hold};

    /// A port to which nothing is attached.
    #[tactic(auto, unfolding(crate::specs::Port::detached))]
    pub fn new(settings: &Settings) -> Port
        ensures { result ≡ record { settings = settings.now; port_record = detached settings.now } }
    {
        Port {
            floor_mw: settings.floor_mw(),
            parts: parts_at_rest(settings),
        }
    }

    /// What the port is set to.
    pub fn settings(&self) -> Settings
        ensures { result ≡ self.now.settings }
    {
        let source = &self.parts.source;
        Settings::new(
            self.floor_mw,
            copied(source.supplies()),
            source.identity_tries(),
            source.unconstrained(),
        )
    }

    /// Whether both ports are set to the same, whatever their records. No settings are copied for it.
    pub fn same_settings(&self, other: &Port) -> bool
        ensures { IsTrue result ↔ (self.now.settings ≡ other.now.settings) }
    {
        self.floor_mw == other.floor_mw && self.parts.source.same_settings(&other.parts.source)
    }

    /// What falls due next on the port, whose next event is given.
    #[tactic(auto, unfolding(crate::specs::Port::due))]
    pub fn due(&self, next: Option<&Event>) -> Option<Due>
        ensures { result ≡ the_due self.now.port_record (option_copied next.entry) }
    {
        earlier_of(due_of_event(next), self.own_due().due())
    }

    /// The same where no event is given.
    pub fn own_due(&self) -> OwnDue
        ensures { told_due result ≡ the_due self.now.port_record None }
    {
        own_due_of(&self.parts)
    }

    /// What the port asks of the shared budget before the step for this due.
    #[tactic(auto, unfolding(crate::specs::Port::ask))]
    pub fn ask(&self, due: &Due) -> Option<Query>
        ensures { result ≡ ask self.now.settings self.now.port_record due.now }
    {
        if is_budget(&due.what) {
            return Some(Query::Keep { power: self.hold() });
        }
        let stimulus = source_told(&self.parts, &due.what)?;
        self.parts.source.ask(&stimulus)
    }

    /// Whether the port asks anything of the shared budget before the step for this due. No query is made for it.
    #[tactic(auto, unfolding(crate::specs::Port::ask))]
    pub fn asks(&self, due: &Due) -> bool
        ensures { result ≡ is_some (ask self.now.settings self.now.port_record due.now) }
    {
        if is_budget(&due.what) {
            return true;
        }
        match source_told(&self.parts, &due.what) {
            Some(stimulus) => self.parts.source.asks(&stimulus),
            None => false,
        }
    }

    /// The step for this due, with the answer to what the port asked. The meter rises by one.
    #[tactic(auto, unfolding(crate::specs::Port::portstep))]
    pub fn step(&mut self, due: &Due, answer: Option<Answer>, meter: &mut Meter) -> Entry
        requires { due.now.time ≤ LAST_TIME }
        ensures after { self.new ≡ record self.old { port_record = record_after self.old.settings self.old.port_record due.now answer } }
        ensures entry { result ≡ entry_of self.old.settings self.old.port_record due.now answer }
        ensures meter { meter.new ≡ raised meter.old 1 }
    {
        let before = self.copy();
        let mut entry = Entry::new();
        self.step_into(
            &before,
            true,
            due,
            before.ask(due),
            &answer,
            meter,
            &mut entry,
        );
        entry
    }

    /// The port becomes what the step of another one for this due leaves, where it is known what that one asks, and the step's entry is put
    /// where it stays: it is long, and would be copied once more. Where it is known that the port stands as the other one already, that
    /// is said, and the other one isn't copied for a step that changes little. The meter rises by one.
    pub fn step_into(
        &mut self,
        before: &Port,
        stands: bool,
        due: &Due,
        query: Option<Query>,
        answer: &Option<Answer>,
        meter: &mut Meter,
        entry: &mut Entry,
    )
        requires time { due.now.time ≤ LAST_TIME }
        requires stands { stands ≡ true → self.old ≡ before.now }
        requires asks { query ≡ ask before.now.settings before.now.port_record due.now }
        ensures after { self.new ≡ record before.now {
          port_record = record_after before.now.settings before.now.port_record due.now answer.now;
        } }
        ensures entry { entry.new ≡ entry_of before.now.settings before.now.port_record due.now answer.now }
        ensures meter { meter.new ≡ raised meter.old 1 }
    {
        meter.rise();
        step_parts(&mut self.parts, &before.parts, stands, due, answer, entry);
        self.floor_mw = before.floor_mw;
        entry.at = due.time;
        entry.due = *due;
        entry.query = query;
        entry.contract = change_of(before.contract(), self.contract());
    }

    /// What the port holds of the shared budget, in microwatts.
    #[tactic(auto, unfolding(crate::specs::Port::hold))]
    pub fn hold(&self) -> u64
        ensures { result ≡ hold self.now.settings self.now.port_record }
    {
        self.parts.source.hold(u64::from(self.floor_mw) * 1_000)
    }

    /// The contract that is in force.
    pub fn contract(&self) -> Option<Contract>
        ensures { result ≡ self.now.port_record.source.contract }
    {
        self.parts.source.contract()
    }

    /// The state that the source is in.
    pub fn source_state(&self) -> SourceState
        ensures { result ≡ self.now.port_record.source.state }
    {
        self.parts.source.state()
    }

    /// The state that the sink is in.
    pub fn sink_state(&self) -> SinkState
        ensures { result ≡ self.now.port_record.sink.state }
    {
        self.parts.sink.state()
    }

    /// The sink that is attached, as its engine knows it.
    pub fn sink_settings(&self) -> Option<SinkSettings>
        ensures { result ≡ self.now.port_record.sink.sink }
    {
        self.parts.sink.settings()
    }

    /// The objects of the offer that the sink's engine keeps.
    pub fn kept_offer(&self) -> &[u32]
        ensures offer { result.now ≡ self.now.port_record.sink.kept_offer }
        ensures few { length result.now ≤ 7 }
    {
        self.parts.sink.kept_offer()
    }

    /// What is on the line.
    pub fn line(&self) -> &Line
        ensures { result.now ≡ self.now.port_record.line }
    {
        &self.parts.line
    }

    /// Whether both ports' records are the same, whatever the ports are set to.
    pub fn same(&self, other: &Port) -> bool
        ensures { IsTrue result ↔ (self.now.port_record ≡ other.now.port_record) }
    {
        self.parts.same(&other.parts)
    }

    /// A port with the same settings and the same record.
    pub fn copy(&self) -> Port
        ensures { result ≡ self.now }
    {
        *self
    }
}
