//! Answers to the desk's own lines.

ghost use Rattle.std.specs.Prelude.{◌≡◌, ◌⊎◌, ◌+◌, ◌<◌, ◌≤◌, ◌^◌, ◌++◌, [], codes, IfOk, IfErr, MatchResult};
ghost use Rattle.pd_edit_lines.specs.Words.{words};
ghost use Rattle.pd_scenario.specs.Plans.{plan_of};
ghost use Rattle.pd_save.specs.Files.{ReadsOtherwise, file_text};
ghost use Rattle.pd_bench.specs.Session.{answered};
ghost use Rattle.pd_bench.specs.Stream.{IsRunning};
ghost use Rattle.pd_desk.specs.Commands.{colon_of, second};
ghost use Rattle.pd_desk.specs.Varying.{MissesPort};
ghost use Rattle.pd_text.specs.declared.piece.Form.TheVariants.{Words};
ghost use Rattle.pd_why.specs.Answers.{TellsWhy};
ghost use Rattle.pd_desk.specs.Desk.{FailsEdit, FailsSave, FailsShow, FailsSweep, FailsTest, FailsWhy, IsSavedAs, ReadsBack, Saves, Tells};
ghost use Rattle.pd_desk.specs.Desk.{TellsAll, TellsChanges, TellsTested, as_saved, saved_text, with_shelf};
ghost use Rattle.pd_desk.specs.OwnFaults.{own_sentence};
ghost use Rattle.pd_desk.specs.Standings.{IsNotDone, notes_of, standing_of};
ghost use Rattle.pd_desk.specs.declared.own.NotDone.TheVariants as not_done;
ghost use Rattle.pd_desk.specs.Tellings.{TellsShow, TellsSweep, campaign_of};
ghost use Rattle.pd_desk.specs.declared.own.OwnFault.TheVariants.{Memory as memory, Differs as differs, NoSuchPort as no_such_port};
ghost use Rattle.pd_desk.specs.declared.colon.Saved.TheVariants as saved;

use crate::desk::Desk;
use crate::help::help_text;
use crate::load::load;
use crate::steps::{redo, undo};
use crate::tellings::{drawn, guaranteed, shown, swept, tested, warned};
use crate::varying::vary;
use crate::{Colon, Losses, Saved, Shelf, ShelfFault, file_of, run_diff, why_port};
use pd_device::Text;
use pd_port::Meter;
use pd_run::Runner;
use pd_save::{SaveFault, list_scenario, scenario_text};
use pd_scenario::Scenario;
use pd_sweep::{Campaign, Choice, Loss};
use pd_why::Question;
use std::alloc::{AllocError, Global};

/// Why a line of the desk's own did nothing.
#[derive(Clone, Copy, Debug, PartialEq, Eq)]
pub enum OwnFault {
    /// It is none of those that there are.
    Unknown,
    /// No accepted edit is left that could be taken back.
    NoEdit,
    /// So many are left, fewer than were to be taken back.
    FewEdits { left: usize },
    /// No edit is left that was taken back.
    NoRedo,
    NoSuchPort,
    /// No packet of the run is one that a sweep can lose.
    NoPacket,
    /// The text would read as something else than the scenario.
    Differs,
    /// The file is there already.
    Stands,
    /// The file couldn't be written.
    NotSaved,
    /// The file of expectations couldn't be read.
    NotRead,
    /// The file of edits couldn't be read.
    NotLoaded,
    /// The file is a scenario, and no edit script.
    NoScript,
    Memory,
}

impl From<AllocError> for OwnFault {
    ghost from_gives = { λ _ fault. fault ≡ memory };

    fn from(_: AllocError) -> OwnFault {
        Self::Memory
    }
}

/// Why a line of the desk's own did nothing, and what is told of that.
#[derive(Drop)]
pub(crate) enum NotDone {
    Fault(OwnFault),
    /// Lines of the script are refused that was to be loaded, or words behind `:vary`: which, and why.
    Refused(Vec<u8>),
}

impl From<OwnFault> for NotDone {
    ghost from_gives = { λ fault why. why ≡ not_done.Fault fault };

    fn from(fault: OwnFault) -> NotDone {
        Self::Fault(fault)
    }
}

impl From<AllocError> for NotDone {
    ghost from_gives = { λ _ why. why ≡ not_done.Fault memory };

    fn from(_: AllocError) -> NotDone {
        Self::Fault(OwnFault::Memory)
    }
}

impl OwnFault {
    /// What is said of it.
    pub fn sentence(self) -> Text<192>
        ensures { result ≡ own_sentence self }
    {
        let mut text = Text::new();
        match self {
            OwnFault::Unknown => {
                text.push_all(b"the desk's own lines are :list, :undo, :redo, :diff, :why, ");
                text.push_all(b":show, :warn, :guarantee, :sweep, :vary, :test, :draw, :save, ");
                text.push_all(b":save-edits, :load and :quit; :help tells of them\n");
            }
            OwnFault::NoEdit => text.push_all(b"no accepted edit is left to take back\n"),
            OwnFault::FewEdits { left } => {
                text.push_all(b"fewer edits can be taken back: ");
                text.push_number(left as u64);
                text.push_all(b"\n");
            }
            OwnFault::NoRedo => text.push_all(
                b"no edit that was taken back is left to make again\n",
            ),
            OwnFault::NoSuchPort => text.push_all(b"no port has this number\n"),
            OwnFault::NoPacket => text.push_all(b"no packet of the run was tried\n"),
            OwnFault::Differs => text.push_all(
                b"not saved: the text would read as another scenario\n",
            ),
            OwnFault::Stands => {
                text.push_all(
                    b"not saved: the file is there; :save!, :save-edits! or :draw! writes it anew\n",
                );
            }
            OwnFault::NotSaved => text.push_all(b"not saved: the file can't be written\n"),
            OwnFault::NotRead => text.push_all(b"not tested: the file can't be read\n"),
            OwnFault::NotLoaded => text.push_all(b"not loaded: the file can't be read\n"),
            OwnFault::NoScript => text.push_all(
                b"not loaded: it is a scenario, and no edit script; pdlab live FILE opens it\n",
            ),
            OwnFault::Memory => text.push_all(b"there was no memory for it\n"),
        }
        text
    }
}

/// A telling of `:diff`.
fn diff_of(alloc: Global, changes: Vec<u8>) -> Result<Vec<u8>, AllocError>
    ensures { IfOk result (λ text. text.items ≡ codes "= diff\n" ++ changes.items) }
{
    let mut text = Vec::new(alloc);
    text.extend_from_slice(b"= diff\n")?;
    text.extend_from_slice(changes.as_slice())?;
    Ok(text)
}

/// What the last accepted edit changed.
fn diff<const N: usize>(
    alloc: Global,
    desk: &Desk<N>,
    meter: &mut Meter,
) -> Result<Vec<u8>, OwnFault>
    ensures { MatchResult result (λ text. TellsChanges (standing_of desk.now) text.items)
        (λ fault. FailsEdit (notes_of desk.now.notes) fault) }
{
    let Some(last) = desk.notes.earlier.as_slice().last() else {
        return Err(OwnFault::NoEdit);
    };
    let changes = run_diff(alloc, &last.scenario, &desk.state.scenario, meter)?;
    Ok(diff_of(alloc, changes)?)
}

/// What all accepted edits changed.
fn diff_all<const N: usize>(
    alloc: Global,
    desk: &Desk<N>,
    meter: &mut Meter,
) -> Result<Vec<u8>, AllocError>
    ensures { IfOk result (λ text. TellsAll (standing_of desk.now) text.items) }
{
    let changes = run_diff(alloc, &desk.first, &desk.state.scenario, meter)?;
    diff_of(alloc, changes)
}

/// What a file is to hold.
fn saved_as<const N: usize>(
    alloc: Global,
    what: Saved,
    desk: &Desk<N>,
    meter: &mut Meter,
) -> Result<Vec<u8>, OwnFault>
    ensures text { IfOk result (λ text. IsSavedAs what (standing_of desk.now) text.items × ReadsBack N what desk.now.state.scenario) }
    ensures fault { IfErr result (λ fault. ((fault ≡ differs) × (what ≡ saved.Scenario)
        × ReadsOtherwise N (file_text desk.now.state.scenario) desk.now.state.scenario) ⊎ (fault ≡ memory)) }
{
    match what {
        Saved::Scenario => match scenario_text(alloc, &desk.state.scenario) {
            Ok(text) => Ok(text),
            Err(SaveFault::Memory) => Err(OwnFault::Memory),
            Err(SaveFault::Differs) => Err(OwnFault::Differs),
        },
        Saved::Edits => Ok(desk.notes.script(alloc)?),
        Saved::Picture => Ok(drawn(alloc, &desk.state.scenario, meter)?),
    }
}

/// What is told where a file was written.
fn saved_text(alloc: Global, file: &[u8]) -> Result<Vec<u8>, AllocError>
    ensures { IfOk result (λ text. text.items ≡ saved_text file.now) }
{
    let mut text = Vec::new(alloc);
    text.extend_from_slice(b"saved ")?;
    text.extend_from_slice(file)?;
    text.extend_from_slice(b"\n")?;
    Ok(text)
}

/// Notes that what stands was saved, but for a picture.
fn note_saved<const N: usize>(what: Saved, desk: &mut Desk<N>)
    ensures desk { standing_of desk.new ≡ as_saved what (standing_of desk.old) }
    ensures state { desk.new.state ≡ desk.old.state }
{
    match what {
        Saved::Scenario | Saved::Edits => desk.saved = desk.number,
        Saved::Picture => {}
    }
}

/// Writes a file under the name on a line. All is made before the file is touched.
fn save<const N: usize, S: Shelf>(
    alloc: Global,
    line: &[u8],
    what: Saved,
    is_over: bool,
    desk: &mut Desk<N>,
    shelf: &mut S,
    meter: &mut Meter,
) -> Result<Vec<u8>, OwnFault>
    ensures text { MatchResult result
        (λ text. Saves N (with_shelf (standing_of desk.old) (S.known shelf.old)) what is_over (second (words line.now)) text.items
        (with_shelf (standing_of desk.new) (S.known shelf.new)))
        (λ fault. FailsSave N desk.old.state.scenario what is_over (second (words line.now)) fault (S.known shelf.old) (S.known shelf.new)
        × (standing_of desk.new ≡ standing_of desk.old)) }
    ensures scenario { desk.new.state ≡ desk.old.state }
{
    let Some(file) = file_of(line) else {
        return Err(OwnFault::Unknown);
    };
    let saved = saved_as(alloc, what, desk, meter)?;
    let text = saved_text(alloc, file)?;
    match shelf.put(file, saved.as_slice(), is_over) {
        Ok(()) => {
            note_saved(what, desk);
            Ok(text)
        }
        Err(ShelfFault::Stands) => Err(OwnFault::Stands),
        Err(ShelfFault::Failed) => Err(OwnFault::NotSaved),
    }
}

/// What bounds a port.
fn bounds<const N: usize>(
    alloc: Global,
    scenario: &Scenario<N>,
    port: u64,
    to: Option<u64>,
    meter: &mut Meter,
) -> Result<Vec<u8>, OwnFault>
    ensures text { IfOk result (λ text. TellsWhy Words (plan_of scenario.now) (record { port = port; to = to }) [] text.items) }
    ensures fault { IfErr result (FailsWhy N port) }
{
    if port < 1 || port > N as u64 {
        return Err(OwnFault::NoSuchPort);
    }
    let question = Question {
        port: port as usize,
        to,
    };
    Ok(why_port(alloc, scenario, &question, meter)?)
}

/// The transcript of the run: of a port, or of all.
fn show<const N: usize>(
    alloc: Global,
    scenario: &Scenario<N>,
    port: Option<u64>,
    meter: &mut Meter,
) -> Result<Vec<u8>, OwnFault>
    ensures text { IfOk result (λ text. TellsShow scenario.now port text.items) }
    ensures fault { IfErr result (FailsShow N port) }
{
    let Some(port) = port else {
        return Ok(shown(alloc, scenario, None, meter)?);
    };
    if port < 1 || port > N as u64 {
        return Err(OwnFault::NoSuchPort);
    }
    Ok(shown(alloc, scenario, Some(port as usize), meter)?)
}

/// Refuses a port that is named, where the charger doesn't have it.
pub(crate) fn check_port(ports: usize, port: Option<u64>) -> Result<(), OwnFault>
    ensures { IfErr result (λ fault. (fault ≡ no_such_port) × MissesPort ports port) }
{
    match port {
        Some(port) if port < 1 || port > ports as u64 => Err(OwnFault::NoSuchPort),
        _ => Ok(()),
    }
}

/// Which packets are lost, each in a run of its own.
fn campaign_of(losses: &Losses) -> Campaign
    ensures { result ≡ campaign_of losses.now }
{
    let port = match losses.port {
        None => None,
        Some(port) => Some(port as usize),
    };
    let choice = Choice {
        port,
        from: losses.from,
        to: losses.to,
        kind: None,
    };
    Campaign {
        choice,
        loss: Loss::Lost,
        behind: 0,
        any: 1,
        most: u64::MAX,
        reserve: None,
    }
}

/// What losing packets of the run leads to.
fn sweep<const N: usize>(
    alloc: Global,
    scenario: &Scenario<N>,
    losses: Losses,
    meter: &mut Meter,
) -> Result<Vec<u8>, OwnFault>
    ensures text { IfOk result (λ text. TellsSweep N scenario.now losses text.items) }
    ensures fault { IfErr result (FailsSweep N scenario.now losses) }
{
    check_port(N, losses.port)?;
    let campaign = campaign_of(&losses);
    let (tally, text) = swept(alloc, scenario, &campaign, losses.all, meter)?;
    if tally.tried == 0 {
        return Err(OwnFault::NoPacket);
    }
    Ok(text)
}

/// What the expectations come to of the file that a line names.
fn test<const N: usize, S: Shelf>(
    alloc: Global,
    line: &[u8],
    desk: &Desk<N>,
    shelf: &S,
    meter: &mut Meter,
) -> Result<Vec<u8>, OwnFault>
    ensures { MatchResult result
        (λ text. TellsTested N (with_shelf (standing_of desk.now) (S.known shelf.now)) (second (words line.now)) text.items)
        (λ fault. FailsTest (second (words line.now)) fault) }
{
    let Some(file) = file_of(line) else {
        return Err(OwnFault::Unknown);
    };
    let Ok(script) = shelf.get(alloc, file) else {
        return Err(OwnFault::NotRead);
    };
    Ok(tested(alloc, &desk.state.scenario, file, script.as_slice(), meter)?)
}

/// What is told for a line of the desk's own.
///
/// # Errors
/// It could not be done; then all is as it was, but that a shelf counts what it could not take.
pub(crate) fn own_text<const N: usize, T: Runner<N>, S: Shelf>(
    alloc: Global,
    line: &[u8],
    desk: &mut Desk<N>,
    runner: &mut T,
    shelf: &mut S,
    meter: &mut Meter,
) -> Result<Vec<u8>, NotDone>
    requires runs { IsRunning (T.plan runner.old) (T.entries runner.old) desk.old.state.scenario }
    requires room { answered desk.old.state.tally + 1 < 2 ^ 32 }
    ensures text { MatchResult result
        (λ text. Tells N (with_shelf (standing_of desk.old) (S.known shelf.old)) (colon_of line.now) line.now text.items
        (with_shelf (standing_of desk.new) (S.known shelf.new)))
        (λ why. IsNotDone N (with_shelf (standing_of desk.old) (S.known shelf.old)) (colon_of line.now) line.now why
        (with_shelf (standing_of desk.new) (S.known shelf.new))) }
    ensures runs { IsRunning (T.plan runner.new) (T.entries runner.new) desk.new.state.scenario }
    ensures room { (answered desk.new.state.tally ≤ answered desk.old.state.tally) ⊎ (answered desk.new.state.tally ≤ 4000000000) }
{
    match Colon::read(line) {
        None => Err(NotDone::Fault(OwnFault::Unknown)),
        Some(Colon::Help) => Ok(help_text(alloc)?),
        Some(Colon::Listing) => Ok(list_scenario(alloc, &desk.state.scenario)?),
        Some(Colon::Undo { before }) => Ok(undo(alloc, before, desk, runner, meter)?),
        Some(Colon::Redo) => Ok(redo(alloc, desk, runner, meter)?),
        Some(Colon::Diff) => Ok(diff(alloc, desk, meter)?),
        Some(Colon::DiffAll) => Ok(diff_all(alloc, desk, meter)?),
        Some(Colon::Save { what, is_over }) => {
            Ok(save(alloc, line, what, is_over, desk, shelf, meter)?)
        }
        Some(Colon::Why { port, to }) => Ok(bounds(alloc, &desk.state.scenario, port, to, meter)?),
        Some(Colon::Show { port }) => Ok(show(alloc, &desk.state.scenario, port, meter)?),
        Some(Colon::Warn) => Ok(warned(alloc, &desk.state.scenario, meter)?),
        Some(Colon::Guarantee) => Ok(guaranteed(alloc, &desk.state.scenario)?),
        Some(Colon::Sweep(losses)) => Ok(sweep(alloc, &desk.state.scenario, losses, meter)?),
        Some(Colon::Vary) => vary(alloc, line, &desk.state.scenario, meter),
        Some(Colon::Test) => Ok(test(alloc, line, desk, shelf, meter)?),
        Some(Colon::Load) => load(alloc, line, desk, runner, shelf, meter),
        Some(Colon::Quit) => Ok(Vec::new(alloc)),
    }
}
