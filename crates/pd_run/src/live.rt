//! Ports that move.

ghost use Rattle.std.specs.Prelude.{◌≡◌, ℕ, ◌+◌, ◌-◌, ◌<◌, ◌≤◌, ◌∷◌, ◌++◌, ◌↔◌, List, [], None, true, length, max};
ghost use Rattle.std.specs.Prelude.{IfOk, OnOk, OnErr, IfSome, IfNone, MatchOption, IsTrue, IsFalse, ⊤};
ghost use Rattle.std.specs.Prelude.{option_map, slice_get, slice_index, slice_index_or, slice_set};
ghost use Rattle.pd_port.specs.Meter.{raised};
ghost use Rattle.pd_port.specs.Port.{ask, is_event, due, hold};
ghost use Rattle.pd_port.specs.declared.due.Due.{Due as DueData};
ghost use Rattle.pd_ledger.specs.Offer.{answer_of};
ghost use Rattle.pd_scenario.specs.Plan.{IsPlan, count, floors_of, force, script_of};
ghost use Rattle.pd_run.specs.Run.{Move, NoneLater, IsAnswered, taken_after};
ghost use Rattle.pd_run.specs.Live.{LiveData, StandsAfter, IsSoFar, IsNext, IsOver, at_budget, due_at, next_move, port_at};
ghost use Rattle.pd_run.specs.Held.{HoldsOn};
ghost use Rattle.pd_run.specs.Live.{reply_at, moved_port, moved_live, renewed, followed, had_with, taken_up, IsNextBeside, HasMovedBeside};
ghost use Rattle.pd_run.specs.Shown.{SafeRun};
ghost use Rattle.pd_run.specs.Start.{no_port};
ghost use Rattle.pd_run.specs.StepsLeft.{steps_left};
ghost use Rattle.pd_run.specs.UpTo.{IsUpTo, AreAfter, had_by};
ghost use Rattle.pd_run.specs.Stepped.{step_of};

use crate::had::had_by;
use crate::shared_budget::gives;
use crate::{Plan, SharedPort, SharedStep, SpareSteps};
use pd_ledger::Ledger;
use pd_objects::{Answer, Query};
use pd_port::{Due, Entry, Meter, Port, What};
use std::alloc::{AllocError, Global};
use std::marker::Model;

/// What a port asks of the shared budget at a due, and what it is answered.
#[derive(Drop)]
pub struct Asked {
    /// What it asks, if anything.
    pub query: Option<Query>,
    /// The answer to that.
    pub answer: Option<Answer>,
}

/// N ports as they stand, 1 to 8, how many events each has had, what falls due next on each, and the shared budget. Ports are
/// numbered from 1.
#[derive(Drop)]
pub struct Live<const N: usize> {
    ports: Vec<SharedPort>,
    taken: Vec<usize>,
    // A port's due changes only when the port moves, so it is asked then and kept.
    dues: Vec<Option<Due>>,
    ledger: Ledger<N>,
    spare: SpareSteps,
}

impl<const N: usize> Model for Live<N> {
    ghost use Rattle.pd_run.specs.Live.{LiveData, HasPorts};

    ghost Value = { LiveData };

    ghost view = { λ l. record { ports = l.ports.items; taken = l.taken.items; dues = l.dues.items; account = l.ledger } };

    ghost invariant = { λ l. HasPorts N (record {
      ports = l.ports.items;
      taken = l.taken.items;
      dues = l.dues.items;
      account = l.ledger;
    }) };
}

impl<const N: usize> Live<N> {
    /// Each port at the start.
    ///
    /// # Errors
    /// There is no memory.
    pub fn new(alloc: Global, plan: &Plan<N>) -> Result<Live<N>, AllocError>
        ensures { IfOk result (λ live. StandsAfter plan.now [] live) }
    {
        let _end = plan.end();
        let ports = plan.ports(alloc)?;
        Live::resume(alloc, plan, ports, 0)
    }

    /// The ports as they stand, with nothing due before a time any more.
    ///
    /// # Errors
    /// There is no memory.
    pub fn resume(
        alloc: Global,
        plan: &Plan<N>,
        ports: Vec<SharedPort>,
        at: u64,
    ) -> Result<Live<N>, AllocError>
        requires count { length ports.items ≡ N }
        requires within { at ≤ plan.now.end }
        ensures { IfOk result (λ live. (past : List Move) → IsUpTo plan.now past at → AreAfter plan.now past ports.items
            → StandsAfter plan.now past live) }
    {
        let budget = plan.budget();
        let floors = plan.floors(alloc)?;
        let holds = holds_of(alloc, ports.as_slice(), floors.as_slice())?;
        let taken = taken_by(alloc, plan, at)?;
        let dues = next_dues(alloc, plan, ports.as_slice(), taken.as_slice())?;
        Ok(Live {
            ports,
            taken,
            dues,
            ledger: Ledger::with_holds(budget, floors.as_slice(), holds.as_slice()),
            spare: SpareSteps::new(alloc),
        })
    }

    /// The same ports, whose steps are put in this room.
    pub fn with_spare(self, spare: SpareSteps) -> Live<N>
        ensures { result ≡ self.entry }
    {
        let mut live = self;
        live.spare = spare;
        live
    }

    /// The room that is left for steps, of ports that aren't needed any more.
    pub fn into_spare(self) -> SpareSteps {
        let Live { spare, .. } = self;
        spare
    }

    /// The port that moves next, with what falls due on it, if that isn't after the end. Where nothing is, the run is whole.
    pub fn next(&self, plan: &Plan<N>) -> Option<(usize, Due)>
        ensures next { MatchOption result
            ((past : List Move) → StandsAfter plan.now past self.now → SafeRun plan.now past)
            (λ r. IsNext plan.now self.now r.0 r.1) }
        ensures over { IfNone result (IsOver plan.now self.now (count plan.now)) }
        ensures in_order { IfSome result (λ r. (past : List Move) → StandsAfter plan.now past self.now
            → NoneLater r.1.time (r.0 - 1) past) }
        ensures is_plan { IsPlan N plan.now }
    {
        let (port, due) = self.first(plan)?;
        Some((port + 1, *due))
    }

    /// All ports as they stand, for one more owner.
    ///
    /// # Errors
    /// There is no memory, as where a port has more owners than can be counted.
    pub fn ports(&self, alloc: Global) -> Result<Vec<SharedPort>, AllocError>
        ensures { IfOk result (λ ports. ports.items ≡ self.now.ports) }
    {
        let mut ports = Vec::with_capacity(alloc, N)?;
        for port in &self.ports {
            ports.push(port.share()?)?;
        }
        Ok(ports)
    }

    /// A port as it stands, for one more owner.
    ///
    /// # Errors
    /// It has more owners than can be counted.
    pub fn share(&self, port: usize) -> Result<SharedPort, AllocError>
        requires first { 1 ≤ port }
        requires last { port ≤ N }
        ensures { IfOk result (λ shared. shared ≡ port_at self.now (port - 1)) }
    {
        self.ports[port - 1].share()
    }

    /// A port as it stands.
    pub fn port(&self, port: usize) -> &Port
        requires first { 1 ≤ port }
        requires last { port ≤ N }
        ensures { result.now ≡ port_at self.now (port - 1) }
    {
        self.shared(port).port()
    }

    /// What a port holds of the shared budget as it stands, in microwatts.
    pub fn hold(&self, port: usize) -> u64
        requires first { 1 ≤ port }
        requires last { port ≤ N }
        ensures { result ≡ hold (port_at self.now (port - 1)).settings (port_at self.now (port - 1)).port_record }
    {
        self.shared(port).hold()
    }

    /// What a port asks at a due, with the answer to it. From now on the shared budget is that of the due's time.
    pub fn reply_beside(&mut self, plan: &Plan<N>, port: usize, due: &Due) -> Asked
        requires first { 1 ≤ port }
        requires last { port ≤ N }
        requires floors { self.old.account.floors ≡ floors_of plan.now }
        ensures query { result.query ≡ ask (port_at self.new (port - 1)).settings (port_at self.new (port - 1)).port_record due.now }
        ensures answer { result.answer ≡ reply_at self.new (port - 1) due.now }
        ensures budget { self.new ≡ at_budget self.old (force plan.now due.now.time) }
    {
        let budget = plan.force(due.time);
        self.ledger.set_budget(budget);
        let query = self.ports[port - 1].ask(due);
        let answer = reply(&self.ledger, port, &query);
        Asked { query, answer }
    }

    /// The answer alone, where all ports stand as moves have left them.
    pub fn reply(&mut self, plan: &Plan<N>, port: usize, due: &Due) -> Option<Answer>
        requires first { 1 ≤ port }
        requires last { port ≤ N }
        requires stands { (past : List Move) × StandsAfter plan.now past self.old }
        ensures answer { result ≡ reply_at self.new (port - 1) due.now }
        ensures budget { self.new ≡ at_budget self.old (force plan.now due.now.time) }
        ensures stands { (past : List Move) → StandsAfter plan.now past self.old → StandsAfter plan.now past self.new }
        ensures next { IsNext plan.now self.old port due.now → IsNext plan.now self.new port due.now }
        ensures known { (past : List Move) → StandsAfter plan.now past self.old
            → result ≡ (next_move plan.now past (port - 1) due.now).answer }
    {
        let _budget = plan.force(due.time);
        let Asked { answer, .. } = self.reply_beside(plan, port, due);
        answer
    }

    /// The step of the port that moves next for what falls due, with what it asks and the answer to it; the other ports needn't stand
    /// where their moves have left them. The meter rises by one.
    ///
    /// # Errors
    /// There is no memory. The ports stand as they stood; the meter may have risen.
    pub fn step_beside(
        &mut self,
        alloc: Global,
        plan: &Plan<N>,
        port: usize,
        due: &Due,
        asked: Asked,
        meter: &mut Meter,
    ) -> Result<SharedStep, AllocError>
        requires plan { IsPlan N plan.now }
        requires next { (past : List Move) × (whole : LiveData) × IsNextBeside plan.now past whole port due.now self.old }
        requires query { asked.query ≡ ask (port_at self.old (port - 1)).settings (port_at self.old (port - 1)).port_record due.now }
        requires answer { asked.answer ≡ reply_at self.old (port - 1) due.now }
        ensures step { IfOk result (λ step. step ≡ step_of (port_at self.old (port - 1)) due.now asked.answer) }
        ensures moved { OnOk result (self.new ≡ moved_live plan.now self.old (port - 1) due.now) }
        ensures meter { OnOk result (meter.new ≡ raised meter.old 1) }
        ensures rises { meter.old ≤ meter.new }
        ensures same { OnErr result (self.new ≡ self.old) }
    {
        let Asked { query, answer } = asked;
        let step = self.ports[port - 1].step(alloc, &mut self.spare, due, query, answer, meter)?;
        self.renew(plan, port, due);
        Ok(step)
    }

    /// The same, where all ports stand as moves have left them.
    ///
    /// # Errors
    /// As there.
    pub fn step(
        &mut self,
        alloc: Global,
        plan: &Plan<N>,
        port: usize,
        due: &Due,
        answer: Option<Answer>,
        meter: &mut Meter,
    ) -> Result<Entry, AllocError>
        requires plan { IsPlan N plan.now }
        requires stands { (past : List Move) × StandsAfter plan.now past self.old }
        requires next { IsNext plan.now self.old port due.now }
        requires budget { self.old.account.budget ≡ force plan.now due.now.time }
        requires answer { answer ≡ reply_at self.old (port - 1) due.now }
        ensures entry { IfOk result (λ entry. (past : List Move) → StandsAfter plan.now past self.old
            → entry ≡ (next_move plan.now past (port - 1) due.now).entry) }
        ensures stands { OnOk result ((past : List Move) → StandsAfter plan.now past self.old
            → StandsAfter plan.now (past ++ next_move plan.now past (port - 1) due.now ∷ []) self.new) }
        ensures less { OnOk result (steps_left plan.now self.new < steps_left plan.now self.old) }
        ensures ports { OnOk result (self.new.ports ≡ slice_set self.old.ports (port - 1) (moved_port self.old (port - 1) due.now)) }
        ensures meter { OnOk result (meter.new ≡ raised meter.old 1) }
        ensures rises { meter.old ≤ meter.new }
        ensures same { OnErr result (self.new ≡ self.old) }
    {
        let query = self.ports[port - 1].ask(due);
        let step = self.step_beside(alloc, plan, port, due, Asked { query, answer }, meter)?;
        Ok(step.entry().copy())
    }

    /// Puts the port that moves next to where its move for what falls due has left it; the other ports needn't stand where theirs have
    /// left them.
    pub fn settle(&mut self, plan: &Plan<N>, port: usize, due: &Due, after: SharedPort)
        requires plan { IsPlan N plan.now }
        requires next { (past : List Move) × (whole : LiveData) × IsNextBeside plan.now past whole port due.now self.old }
        requires after { after ≡ moved_port self.old (port - 1) due.now }
        ensures { self.new ≡ moved_live plan.now self.old (port - 1) due.now }
    {
        self.ports[port - 1] = after;
        self.renew(plan, port, due);
    }

    /// From now on the port only follows another run: nothing is kept of what falls due on it.
    pub fn set_aside(&mut self, port: usize)
        requires first { 1 ≤ port }
        requires last { port ≤ N }
        ensures { self.new ≡ record self.old { dues = slice_set self.old.dues (port - 1) None } }
    {
        self.dues[port - 1] = None;
    }

    /// A port that follows another run has moved as there, for an event or for something else, and holds what it held.
    pub fn pass(&mut self, port: usize, is_event: bool)
        requires first { 1 ≤ port }
        requires last { port ≤ N }
        requires few { is_event ≡ true → slice_index self.old.taken (port - 1) < 1000000 }
        ensures { self.new ≡ record self.old {
          taken = slice_set self.old.taken (port - 1)
              (had_with (slice_index self.old.taken (port - 1)) is_event);
        } }
    {
        let taken = self.taken[port - 1];
        self.taken[port - 1] = if is_event { taken + 1 } else { taken };
    }

    /// Whether the move of a port that follows another run, which left this entry and after which the port holds so much, in
    /// microwatts, has the answer that the shared budget gives at its time. If it has, the port has moved, and holds this.
    pub fn follow(
        &mut self,
        plan: &Plan<N>,
        port: usize,
        entry: &Entry,
        answer: &Option<Answer>,
        left: u64,
    ) -> bool
        requires holds { (past : List Move) × (m : Move) × HoldsOn plan.now past self.old.account m port entry.now answer.now left }
        requires few { is_event entry.now.due.what ≡ true → slice_index self.old.taken (port - 1) < 1000000 }
        ensures answered { (past : List Move) (m : Move)
            → HoldsOn plan.now past self.old.account m port entry.now answer.now left → (IsTrue result ↔ IsAnswered plan.now past m) }
        ensures followed { IsTrue result → self.new ≡ followed plan.now self.old (port - 1) entry.now.due left }
        ensures other { IsFalse result → self.new ≡ at_budget self.old (force plan.now entry.now.due.time) }
    {
        let budget = plan.force(entry.due.time);
        self.ledger.set_budget(budget);
        let given = gives(&self.ledger, port, &entry.query, answer);
        if given {
            self.ledger.set_hold(port, left);
            self.taken[port - 1] = taken_after(self.taken[port - 1], &entry.due);
        }
        given
    }

    /// A port that followed another run moves for itself from now on, from where it stands.
    pub fn take_up(&mut self, plan: &Plan<N>, port: usize, stands: SharedPort)
        requires first { 1 ≤ port }
        requires last { port ≤ N }
        ensures { self.new ≡ taken_up plan.now self.old (port - 1) stands }
    {
        let next = stands.due(plan.event(port, self.had(port)));
        self.ports[port - 1] = stands;
        self.dues[port - 1] = next;
    }

    // What a move for a due changes beside the port itself.
    fn renew(&mut self, plan: &Plan<N>, port: usize, due: &Due)
        requires plan { IsPlan N plan.now }
        requires moved { (past : List Move) × (whole : LiveData) × (before : LiveData)
            × HasMovedBeside plan.now past whole before port due.now self.old }
        ensures { self.new ≡ renewed plan.now self.old (port - 1) due.now }
    {
        let hold = self.shared(port).hold();
        let taken = taken_after(self.had(port), due);
        let next = self.shared(port).due(plan.event(port, taken));
        self.ledger.set_hold(port, hold);
        self.taken[port - 1] = taken;
        self.dues[port - 1] = next;
    }

    // A port as it stands, with what is worked out of it.
    fn shared(&self, port: usize) -> &SharedPort
        requires first { 1 ≤ port }
        requires last { port ≤ N }
        ensures { result.now ≡ port_at self.now (port - 1) }
    {
        &self.ports[port - 1]
    }

    // How many events a port has had.
    fn had(&self, port: usize) -> usize
        requires first { 1 ≤ port }
        requires last { port ≤ N }
        ensures { result ≡ slice_index self.now.taken (port - 1) }
    {
        self.taken[port - 1]
    }

    // Like `next`, with the ports numbered from 0.
    #[inline(always)]
    fn first(&self, plan: &Plan<N>) -> Option<(usize, &Due)>
        ensures first { IsSoFar plan.now self.now N (option_map (λ r. (r.0, r.1.now)) result) }
        ensures is_plan { IsPlan N plan.now }
    {
        let _end = plan.end();
        let mut first: Option<(usize, &Due)> = None;
        for port in 0..N {
            first = self.with_port(plan, port, first);
        }
        first
    }

    // The first due with one more port.
    #[inline(always)]
    fn with_port<'a>(
        &'a self,
        plan: &Plan<N>,
        port: usize,
        first: Option<(usize, &'a Due)>,
    ) -> Option<(usize, &'a Due)>
        requires known { port < N }
        requires so_far { IsSoFar plan.now self.now port (option_map (λ r. (r.0, r.1.now)) first) }
        ensures { IsSoFar plan.now self.now (port + 1) (option_map (λ r. (r.0, r.1.now)) result) }
    {
        let end = plan.end();
        let Some(due) = self.due(port) else {
            return first;
        };
        if due.time > end {
            return first;
        }
        if is_before(due, &first) {
            return Some((port, due));
        }
        first
    }

    fn due(&self, port: usize) -> Option<&Due>
        requires { port < N }
        ensures { option_map (λ d. d.now) result ≡ due_at self.now port }
    {
        self.dues[port].as_ref()
    }
}

// What each port holds, in microwatts; no less than its floor.
pub(crate) fn holds_of(
    alloc: Global,
    ports: &[SharedPort],
    floors: &[u64],
) -> Result<Vec<u64>, AllocError>
    requires { length floors.now ≡ length ports.now }
    ensures count { IfOk result (λ holds. length holds.items ≡ length ports.now) }
    ensures holds { IfOk result (λ holds. (p : ℕ) → p < length ports.now
        → slice_index holds.items p ≡ max (slice_index floors.now p)
        (hold (slice_index_or ports.now p no_port).settings (slice_index_or ports.now p no_port).port_record)) }
{
    let mut holds = Vec::new(alloc);
    for (place, port) in ports.iter().enumerate() {
        holds.push(port.hold().max(floors[place]))?;
    }
    Ok(holds)
}

// How many events of each port are before a time.
fn taken_by<const N: usize>(
    alloc: Global,
    plan: &Plan<N>,
    at: u64,
) -> Result<Vec<usize>, AllocError>
    ensures count { IfOk result (λ taken. length taken.items ≡ N) }
    ensures had { IfOk result (λ taken. (p : ℕ) → p < N → slice_index taken.items p ≡ had_by at (script_of plan.now p)) }
{
    let mut taken = Vec::new(alloc);
    for port in 0..N {
        taken.push(had_by(plan, port + 1, 0, at))?;
    }
    Ok(taken)
}

// What falls due next on each port, after so many events of its script.
fn next_dues<const N: usize>(
    alloc: Global,
    plan: &Plan<N>,
    ports: &[SharedPort],
    taken: &[usize],
) -> Result<Vec<Option<Due>>, AllocError>
    requires ports { length ports.now ≡ N }
    requires taken { length taken.now ≡ N }
    ensures count { IfOk result (λ dues. length dues.items ≡ N) }
    ensures dues { IfOk result (λ dues. (p : ℕ) → p < N → slice_index_or dues.items p None
        ≡ due (slice_index_or ports.now p no_port).port_record (slice_get (script_of plan.now p) (slice_index taken.now p))) }
{
    let mut dues = Vec::new(alloc);
    for (place, port) in ports.iter().enumerate() {
        dues.push(port.due(plan.event(place + 1, taken[place])))?;
    }
    Ok(dues)
}

// How many events a port has had after a due.
fn taken_after(taken: usize, due: &Due) -> usize
    requires { is_event due.now.what ≡ true → taken < 1000000 }
    ensures { result ≡ taken_after taken due.now }
{
    if is_event(&due.what) {
        taken + 1
    } else {
        taken
    }
}

// The ledger's answer to a query, if there is one.
fn reply<const N: usize>(ledger: &Ledger<N>, port: usize, query: &Option<Query>) -> Option<Answer>
    requires first { 1 ≤ port }
    requires last { port ≤ N }
    ensures { result ≡ option_map (answer_of ledger.now (port - 1)) query.now }
{
    match query {
        Some(query) => Some(ledger.answer(port, query)),
        None => None,
    }
}

fn is_event(what: &What) -> bool
    ensures { result ≡ is_event what.now }
{
    matches!(what, What::Event(_))
}

fn is_before(due: &Due, first: &Option<(usize, &Due)>) -> bool
    ensures { IsTrue result ↔ MatchOption {T = ℕ × DueData} (option_map (λ r. (r.0, r.1.now)) first.now) ⊤ (λ r. due.now.time < r.1.time) }
{
    match first {
        None => true,
        Some((_, first)) => due.time < first.time,
    }
}
