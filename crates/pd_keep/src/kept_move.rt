//! Moves that are kept, which runs share.

ghost use Rattle.std.specs.Prelude.{◌≡◌, ◌↔◌, ◌<◌, ◌≤◌, ◌+◌, ◌-◌, ◌++◌, ◌∷◌, ℕ, [], List, All, IsTrue, IfOk, OnOk, length, map};
ghost use Rattle.std.specs.Prelude.{false, option_map, slice_get, slice_index_or};
ghost use Rattle.pd_run.specs.Notes.{IsNextWith};
ghost use Rattle.pd_port.specs.Port.{PortData, is_event};
ghost use Rattle.pd_run.specs.Held.{AreHeld};
ghost use Rattle.pd_run.specs.Run.{Move, IsAnswered};
ghost use Rattle.pd_run.specs.Start.{no_port};
ghost use Rattle.pd_run.specs.UpTo.{AreAfter};
ghost use Rattle.pd_keep.specs.Asked.{IsAsked};
ghost use Rattle.pd_keep.specs.Kept.{KeptData, AreRanked, IsBrief, IsLeft, IsMade, IsKnown, IsQuiet, KeepsHold, held_by, kept_of};
ghost use Rattle.pd_keep.specs.Kept.{left_by, marks_kept, move_of, moves_from, rank_kept, shown_of};

use crate::presence::Presence;
use crate::rank::{Rank, number_due};
use crate::spare::SpareLists;
use pd_objects::Answer;
use pd_port::{Due, Entry, Port, What};
use pd_run::{Marks, Note, Plan, SharedBudget, SharedPort, SharedStep, SpareSteps, next_marked};
use std::alloc::{AllocError, Global};
use std::marker::Model;

/// What is kept of a move: its port, numbered from 1; the port before it; and its step, which is the port after it, the answer to what
/// the port asked, and what the move left to be read, with what fell due. Runs share the port and the step.
#[derive(Drop)]
pub struct KeptMove {
    port: usize,
    before: SharedPort,
    step: SharedStep,
}

impl Model for KeptMove {
    ghost use Rattle.pd_keep.specs.Kept.{KeptData};

    ghost Value = { KeptData };

    ghost view = { λ m. record {
      port = m.port;
      before = m.before;
      due = m.step.entry.due;
      answer = m.step.answer;
      after = m.step.after;
      entry = m.step.entry;
    } };
}

impl KeptMove {
    /// What is kept of a move that no run has yet: its port, numbered from 1, before it, and its step.
    pub fn new(port: usize, before: SharedPort, step: SharedStep) -> KeptMove
        ensures { result ≡ record {
          port = port;
          before = before;
          due = step.entry.due;
          answer = step.answer;
          after = step.after;
          entry = step.entry;
        } }
    {
        KeptMove { port, before, step }
    }

    /// The same for one more run.
    ///
    /// # Errors
    /// More runs have it than can be counted.
    pub fn share(&self) -> Result<KeptMove, AllocError>
        ensures { IfOk result (λ shared. shared ≡ self.now) }
    {
        Ok(KeptMove {
            port: self.port,
            before: self.before.share()?,
            step: self.step.share()?,
        })
    }

    /// Takes its room back, and that of the port before it, where no other run has them.
    pub fn take_back(self, spare: &mut SpareSteps)
        ensures { spare.new ≤ spare.old + 2 }
    {
        let KeptMove { before, step, .. } = self;
        spare.take_port(before);
        spare.take_step(step);
    }

    /// Its port, numbered from 1.
    pub fn port(&self) -> usize
        ensures { result ≡ self.now.port }
    {
        self.port
    }

    /// The port before it.
    pub fn before(&self) -> &SharedPort
        ensures { result.now ≡ self.now.before }
    {
        &self.before
    }

    /// The port after it, for one more owner.
    ///
    /// # Errors
    /// It has more owners than can be counted.
    pub fn after(&self) -> Result<SharedPort, AllocError>
        ensures { IfOk result (λ shared. shared ≡ self.now.after) }
    {
        self.step.after()
    }

    /// The answer to what the port asked.
    pub fn answer(&self) -> &Option<Answer>
        ensures { result.now ≡ self.now.answer }
    {
        self.step.answer()
    }

    /// What the move left to be read.
    pub fn entry(&self) -> &Entry
        ensures entry { result.now ≡ self.now.entry }
        ensures due { result.now.due ≡ self.now.due }
    {
        self.step.entry()
    }

    /// What its port holds of the shared budget after it, in microwatts.
    pub fn left(&self) -> u64
        ensures { result ≡ held_by self.now.after }
    {
        self.step.hold()
    }

    // Whether the move asked anything of the shared budget, or its port holds more or less of it than before.
    fn stirs(&self) -> bool
        ensures { (result ≡ false) ↔ IsQuiet self.now }
    {
        self.entry().query.is_some() || self.answer().is_some() || !self.keeps_hold()
    }

    // Whether its port holds as much of the shared budget as before.
    fn keeps_hold(&self) -> bool
        ensures { IsTrue result ↔ KeepsHold self.now }
    {
        self.left() == self.before.hold()
    }

    // Its brief.
    fn brief(&self) -> Brief
        ensures { IsBrief self.now result }
    {
        let due = self.entry().due;
        Brief {
            time: due.time,
            port: self.port,
            number: number_due(&due.what),
            is_event: matches!(due.what, What::Event(_)),
            stirs: self.stirs(),
            keeps_hold: self.keeps_hold(),
            held: self.before.hold(),
        }
    }
}

/// What of a move is looked at where ports go on as in the run that has it: when it was, in microseconds, its port, numbered from 1,
/// the number of its event (`number_due`), whether it was for an event, whether it asked the shared budget or changed what its port
/// holds, whether it left that as it was, and what the port held before it, in microwatts.
#[derive(Clone, Copy)]
pub struct Brief {
    pub time: u64,
    pub port: usize,
    pub number: u32,
    pub is_event: bool,
    pub stirs: bool,
    pub keeps_hold: bool,
    pub held: u64,
}

/// Where a port stands in a span: as at its beginning, or as the move at a place has left it.
#[derive(Clone, Copy)]
pub enum Place {
    First,
    After(usize),
}

/// Moves of a run up to a time, and the ports as they are before them. Moves lie far apart in memory, so beside them stand the marks
/// of their entries, for whoever looks for a note; their briefs, for ports that go on as they did; and where each move's port stood
/// before it, so that ports that come from one move to the next needn't be compared. It is also known where each port stands after the
/// moves. What none of them leaves is noted too, and whether they are known to stand in their order (`Rank`).
#[derive(Drop)]
pub struct KeptMoves {
    to: u64,
    first: Vec<SharedPort>,
    moves: Vec<KeptMove>,
    marks: Vec<Marks>,
    links: Vec<Place>,
    briefs: Vec<Brief>,
    lasts: [Place; 8],
    presence: Presence,
    ranked: bool,
}

impl Model for KeptMoves {
    ghost use Rattle.std.specs.Prelude.{◌≡◌, map, IsTrue};
    ghost use Rattle.pd_keep.specs.Kept.{RunData, AreBrief, AreLast, AreLinked, AreRanked, marks_kept};
    ghost use Rattle.pd_keep.specs.Presence.{AreNoted};

    ghost Value = { RunData };

    ghost view = { λ r. record { to = r.to; first = r.first.items; moves = r.moves.items } };

    ghost invariant = { λ r. (r.marks.items ≡ map marks_kept r.moves.items) × AreLinked r.first.items r.moves.items r.links.items
        × AreBrief r.moves.items r.briefs.items × AreLast r.first.items r.moves.items r.lasts
        × AreNoted r.presence r.marks.items × (IsTrue r.ranked → AreRanked r.moves.items) };
}

impl KeptMoves {
    /// No moves yet, with room for so many in these lists, whatever they hold, and the ports as they are.
    ///
    /// # Errors
    /// There is no memory.
    pub fn in_lists(
        lists: SpareLists,
        first: Vec<SharedPort>,
        room: usize,
    ) -> Result<KeptMoves, AllocError>
        ensures { IfOk result (λ moves. moves ≡ record { to = 0; first = first.items; moves = [] }) }
    {
        Ok(KeptMoves {
            to: 0,
            first,
            moves: emptied(lists.moves, room)?,
            marks: emptied(lists.marks, room)?,
            links: emptied(lists.links, room)?,
            briefs: emptied(lists.briefs, room)?,
            lasts: [Place::First; 8],
            presence: Presence::nothing(),
            ranked: false,
        })
    }

    /// Up to which time these are the moves of a run, in microseconds.
    pub fn to(&self) -> u64
        ensures { result ≡ self.now.to }
    {
        self.to
    }

    /// The same, as the moves of a run up to a time.
    pub fn ended(self, to: u64) -> KeptMoves
        ensures { result ≡ record self { to = to } }
    {
        let ranked = self.rises();
        let mut ended = self;
        ended.ranked = ranked;
        ended.to = to;
        ended
    }

    // Whether each move stands no earlier than the one before it.
    fn rises(&self) -> bool
        ensures { IsTrue result → AreRanked self.now.moves }
    {
        for i in 1..self.len() {
            if self.rank(i).is_before(&self.rank(i - 1)) {
                return false;
            }
        }
        true
    }

    /// Whether it is known that none of the moves stands before one that comes before it. So it is in each run.
    pub fn is_ranked(&self) -> bool
        ensures { IsTrue result → AreRanked self.now.moves }
    {
        self.ranked
    }

    /// Where a move stands among the moves of a run.
    pub fn rank(&self, i: usize) -> Rank
        requires { i < length self.now.moves }
        ensures { (k : KeptData) → result ≡ rank_kept (slice_index_or self.now.moves i k) }
    {
        let brief = self.brief(i);
        Rank {
            time: brief.time,
            port: brief.port,
            number: brief.number,
        }
    }

    /// Takes back the room of the moves and ports that no other run has. The lists are spare, and own no step any more.
    pub fn take_back(self, spare: &mut SpareSteps) -> SpareLists
        ensures { result.moves.items ≡ [] }
    {
        // A step that this run alone has is owned by its move and by the next one of its port.
        let shared = self.owned_beyond(2);
        let KeptMoves {
            first,
            moves,
            marks,
            links,
            briefs,
            ..
        } = self;
        for port in first {
            spare.take_port(port);
        }
        let mut moves = moves;
        if shared < moves.len() {
            take_moves_back(&mut moves, spare);
        }
        moves.clear();
        SpareLists {
            moves,
            marks,
            links,
            briefs,
        }
    }

    /// The number of moves.
    pub fn len(&self) -> usize
        ensures { result ≡ length self.now.moves }
    {
        self.moves.len()
    }

    /// A move's port and entry, by its place in the run.
    pub fn entry(&self, i: usize) -> Option<(usize, &Entry)>
        ensures { option_map (λ r. (r.0, r.1.now)) result ≡ option_map shown_of (slice_get self.now.moves i) }
    {
        let kept = self.moves.get(i)?;
        Some((kept.port, kept.entry()))
    }

    /// The place of the first move from one on whose entry leaves a note, or the number of moves where none does.
    pub fn next_with(&self, note: Note, from: usize) -> usize
        ensures { IsNextWith note (map shown_of self.now.moves) from result }
    {
        if !self.presence.may_have(note) {
            return self.marks.len();
        }
        next_marked(&self.marks, note, from)
    }

    /// Whether a port stands at a place before the moves.
    pub fn begins_with(&self, place: usize, port: &Port) -> bool
        ensures { IsTrue result ↔ (place < length self.now.first) × (slice_index_or self.now.first place no_port ≡ port.now) }
    {
        match self.first.get(place) {
            Some(first) => first.stands_as(port),
            None => false,
        }
    }

    /// What a port at a place holds of the shared budget before the moves, in microwatts.
    pub fn first_hold(&self, place: usize) -> u64
        requires { place < length self.now.first }
        ensures { result ≡ held_by (slice_index_or self.now.first place no_port) }
    {
        self.first[place].hold()
    }

    /// The ports as they are before the moves, for one more owner.
    ///
    /// # Errors
    /// There is no memory.
    pub fn first_ports(&self, alloc: Global) -> Result<Vec<SharedPort>, AllocError>
        ensures { IfOk result (λ ports. ports.items ≡ self.now.first) }
    {
        let mut ports = Vec::new(alloc);
        for port in &self.first {
            ports.push(port.share()?)?;
        }
        Ok(ports)
    }

    /// When a move was, in microseconds.
    pub fn time(&self, i: usize) -> u64
        requires { i < length self.now.moves }
        ensures { (k : KeptData) → result ≡ (slice_index_or self.now.moves i k).due.time }
    {
        self.briefs[i].time
    }

    /// A move's brief.
    pub fn brief(&self, i: usize) -> Brief
        requires { i < length self.now.moves }
        ensures { (k : KeptData) → IsBrief (slice_index_or self.now.moves i k) result }
    {
        self.briefs[i]
    }

    /// What is kept of a move.
    pub fn kept(&self, i: usize) -> &KeptMove
        requires { i < length self.now.moves }
        ensures { (k : KeptData) → result.now ≡ slice_index_or self.now.moves i k }
    {
        &self.moves[i]
    }

    /// Where a move's port stood before it.
    pub fn place_before(&self, i: usize) -> Place
        requires { i < length self.now.moves }
        ensures { (k : KeptData) → IsLeft self.now.first self.now.moves ((slice_index_or self.now.moves i k).port - 1) result
            (slice_index_or self.now.moves i k).before }
    {
        self.links[i]
    }

    /// The number of moves, each of which can have one more owner.
    ///
    /// # Errors
    /// A step has as many owners as can be counted.
    pub fn shareable(&self) -> Result<usize, AllocError>
        ensures { IfOk result (λ count. count ≡ length self.now.moves) }
    {
        if self.owned_beyond(usize::MAX - 2) > 0 {
            return Err(AllocError);
        }
        Ok(self.moves.len())
    }

    // How many of the steps have more owners than so many. Steps lie far apart in memory: looked at one right after the other, all of
    // them are at hand sooner than each by itself.
    fn owned_beyond(&self, owners: usize) -> usize
        ensures few { result ≤ length self.now.moves }
        ensures all { owners ≡ 0 → result ≡ length self.now.moves }
    {
        let mut count = 0;
        for kept in &self.moves {
            if kept.step.owners() > owners {
                count += 1;
            }
        }
        count
    }

    /// A port, numbered from 0 here, as the moves leave it, for one more owner.
    ///
    /// # Errors
    /// It has more owners than can be counted.
    pub fn last_port(&self, port: usize) -> Result<SharedPort, AllocError>
        requires inside { port < length self.now.first }
        requires few { port < 8 }
        ensures { IfOk result (λ shared. shared ≡ left_by self.now.first self.now.moves port) }
    {
        match self.lasts[port] {
            Place::First => self.first[port].share(),
            Place::After(i) => match self.moves.get(i) {
                Some(last) => last.after(),
                None => Err(AllocError),
            },
        }
    }

    /// The marks of a move.
    pub fn marks(&self, i: usize) -> Marks
        requires { i < length self.now.moves }
        ensures { (k : KeptData) → result ≡ marks_kept (slice_index_or self.now.moves i k) }
    {
        self.marks[i]
    }

    /// What the ports hold of the shared budget of a plan before the moves.
    ///
    /// # Errors
    /// There is no memory.
    pub fn shared_budget<const N: usize>(
        &self,
        alloc: Global,
        plan: &Plan<N>,
    ) -> Result<SharedBudget<N>, AllocError>
        requires { length self.now.first ≡ N }
        ensures { IfOk result (λ shared. (past : List Move) → AreAfter plan.now past self.now.first → AreHeld plan.now past shared) }
    {
        SharedBudget::of_ports(alloc, plan, self.first.as_slice())
    }

    /// Whether a move has the answer that the shared budget gives at its time. If it has, its port holds from now on what it
    /// holds after the move.
    pub fn is_answered<const N: usize>(
        &self,
        i: usize,
        plan: &Plan<N>,
        shared: &mut SharedBudget<N>,
    ) -> bool
        requires { (past : List Move) × (k : KeptData) × IsAsked plan.now past shared.old self.now.moves i k }
        ensures answered { IsTrue result → (past : List Move) (k : KeptData)
            → IsAsked plan.now past shared.old self.now.moves i k → IsAnswered plan.now past (move_of k) }
        ensures held { IsTrue result → (past : List Move) (k : KeptData)
            → IsAsked plan.now past shared.old self.now.moves i k → AreHeld plan.now (past ++ move_of k ∷ []) shared.new }
    {
        if !self.briefs[i].stirs {
            return true;
        }
        let kept = &self.moves[i];
        shared.answers(plan, kept.port(), kept.entry(), kept.answer(), kept.left())
    }

    /// Whether a port, numbered from 0 here, is known to stand as the moves leave it. It stands at a place, where one is given.
    pub fn leaves(&self, port: usize, left: Option<Place>) -> bool
        requires { port < 8 }
        ensures { IsTrue result → (x : PortData) → IsKnown self.now.first self.now.moves port left x
            → x ≡ left_by self.now.first self.now.moves port }
    {
        is_at(left, self.lasts[port])
    }

    // Whether a move is known to be the next one of its port, which stands at a place, where one is given.
    fn follows(&self, i: usize, left: Option<Place>) -> bool
        requires { i < length self.now.moves }
        ensures { IsTrue result → (x : PortData) (k : KeptData)
            → IsKnown self.now.first self.now.moves ((slice_index_or self.now.moves i k).port - 1) left x
            → (slice_index_or self.now.moves i k).before ≡ x }
    {
        is_at(left, self.links[i])
    }

    /// Whether a move is the one of such a port, which holds so much, in microwatts, for such a due, with such an answer. It was made
    /// of its own; the port stands at a place, where one is given.
    pub fn repeats(
        &self,
        i: usize,
        left: Option<Place>,
        port: usize,
        held: u64,
        before: &Port,
        due: &Due,
        answer: &Option<Answer>,
    ) -> bool
        requires inside { i < length self.now.moves }
        requires made { All IsMade self.now.moves }
        requires left { IsKnown self.now.first self.now.moves (port - 1) left before.now }
        requires held { held ≡ held_by before.now }
        ensures { IsTrue result ↔ (slice_index_or self.now.moves i (kept_of port before.now due.now answer.now)
            ≡ kept_of port before.now due.now answer.now) }
    {
        let (brief, kept) = (self.brief(i), &self.moves[i]);
        // The brief tells most moves apart, and the move, which lies elsewhere in memory, needn't be read then.
        brief.port == port
            && brief.held == held
            && kept.entry().due.same(due)
            && (self.follows(i, left) || kept.before.stands_as(before))
            && kept.step.has_answer(answer)
    }

    /// Keeps one more move of a port with its marks. The moves before it left the port as it was before this one.
    ///
    /// # Errors
    /// There is no memory.
    pub fn push(&mut self, port: usize, kept: KeptMove, marks: Marks) -> Result<(), AllocError>
        requires first { 1 ≤ port }
        requires last { port ≤ 8 }
        requires port { port ≡ kept.port }
        requires marks { marks ≡ marks_kept kept }
        requires goes { kept.before ≡ left_by self.old.first self.old.moves (port - 1) }
        ensures { OnOk result (self.new ≡ record self.old { moves = self.old.moves ++ kept ∷ [] }) }
    {
        let brief = kept.brief();
        self.push_noted(port, kept, marks, brief)
    }

    /// Keeps one more move, which an older run has too. The moves before it left its port as it was before this one.
    ///
    /// # Errors
    /// There is no memory.
    pub fn push_again(&mut self, old: &KeptMoves, i: usize) -> Result<(), AllocError>
        requires inside { i < length old.now.moves }
        requires first { (k : KeptData) → 1 ≤ (slice_index_or old.now.moves i k).port }
        requires last { (k : KeptData) → (slice_index_or old.now.moves i k).port ≤ 8 }
        requires goes { (k : KeptData) → (slice_index_or old.now.moves i k).before
            ≡ left_by self.old.first self.old.moves ((slice_index_or old.now.moves i k).port - 1) }
        ensures { OnOk result ((k : KeptData)
            → self.new ≡ record self.old { moves = self.old.moves ++ slice_index_or old.now.moves i k ∷ [] }) }
    {
        let brief = old.brief(i);
        self.push_noted(brief.port, old.kept(i).share()?, old.marks(i), brief)
    }

    /// Keeps more moves, which an older run has too, from one place to another. Those before each left its port as it was before it.
    ///
    /// # Errors
    /// There is no memory.
    pub fn push_all_again(
        &mut self,
        old: &KeptMoves,
        from: usize,
        to: usize,
    ) -> Result<(), AllocError>
        requires inside { to ≤ length old.now.moves }
        requires rising { from ≤ to }
        requires first { (i : ℕ) (k : KeptData) → from ≤ i → i < to → 1 ≤ (slice_index_or old.now.moves i k).port }
        requires last { (i : ℕ) (k : KeptData) → from ≤ i → i < to → (slice_index_or old.now.moves i k).port ≤ 8 }
        requires go { (i : ℕ) (k : KeptData) → from ≤ i → i < to → (slice_index_or old.now.moves i k).before
            ≡ left_by self.old.first (self.old.moves ++ moves_from old.now.moves from (i - from))
            ((slice_index_or old.now.moves i k).port - 1) }
        ensures { OnOk result (self.new
            ≡ record self.old { moves = self.old.moves ++ moves_from old.now.moves from (to - from) }) }
    {
        for i in from..to {
            self.push_again(old, i)?;
        }
        Ok(())
    }

    // Keeps one more move with its marks and its brief.
    #[inline(always)]
    fn push_noted(
        &mut self,
        port: usize,
        kept: KeptMove,
        marks: Marks,
        brief: Brief,
    ) -> Result<(), AllocError>
        requires first { 1 ≤ port }
        requires last { port ≤ 8 }
        requires port { port ≡ kept.port }
        requires marks { marks ≡ marks_kept kept }
        requires brief { IsBrief kept brief }
        requires goes { kept.before ≡ left_by self.old.first self.old.moves (port - 1) }
        ensures { OnOk result (self.new ≡ record self.old { moves = self.old.moves ++ kept ∷ [] }) }
    {
        let place = Place::After(self.len());
        self.marks.reserve(1)?;
        self.links.reserve(1)?;
        self.briefs.reserve(1)?;
        let presence = self.presence.with(marks);
        self.moves.push(kept)?;
        self.marks.push_reserved(marks);
        self.links.push_reserved(self.lasts[port - 1]);
        self.briefs.push_reserved(brief);
        self.lasts[port - 1] = place;
        self.presence = presence;
        self.ranked = false;
        Ok(())
    }
}

// A list that holds nothing any more, with room for so many.
fn emptied<T: Drop>(list: Vec<T>, room: usize) -> Result<Vec<T>, AllocError>
    ensures { IfOk result (λ list. list.items ≡ []) }
{
    let mut list = list;
    list.clear();
    list.reserve_exact(room)?;
    Ok(list)
}

// Takes back the room of moves that no other run has.
fn take_moves_back(moves: &mut Vec<KeptMove>, spare: &mut SpareSteps)
    ensures { moves.new.items ≡ [] }
{
    while let Some(kept) = moves.pop() {
        kept.take_back(spare);
    }
}

// Whether a place is given, and is this one.
fn is_at(left: Option<Place>, place: Place) -> bool
    ensures { IsTrue result ↔ (left ≡ Some place) }
{
    match (left, place) {
        (Some(Place::First), Place::First) => true,
        (Some(Place::After(i)), Place::After(j)) => i == j,
        _ => false,
    }
}
