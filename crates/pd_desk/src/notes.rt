//! What a desk notes of the edits that it made.

ghost use Rattle.std.specs.Prelude.{◌≡◌, ◌<◌, ◌++◌, ◌∷◌, [], List, ℕ, IfOk, OnOk, vec_len, vec_capacity};
ghost use Rattle.std.specs.List.{flat_map};
ghost use Rattle.pd_desk.specs.History.{no_notes, noted, script_text};
ghost use Rattle.pd_desk.specs.Standings.{notes_of};

use crate::copy::copied;
use pd_scenario::Scenario;
use std::alloc::{AllocError, Global};
use std::marker::Model;

/// How many edits can be taken back.
const MOST_EARLIER: usize = 100;

/// The line of an edit, as it was read, without what ended it.
#[derive(Drop)]
pub(crate) struct NotedLine {
    bytes: Vec<u8>,
}

impl Model for NotedLine {
    ghost use Rattle.std.specs.Prelude.{ℕ, List};

    ghost Value = { List ℕ };

    ghost view = { λ line. line.bytes.items };
}

impl NotedLine {
    /// # Errors
    /// There is no memory for it.
    pub fn of(alloc: Global, line: &[u8]) -> Result<NotedLine, AllocError>
        ensures { IfOk result (λ noted. noted ≡ line.now) }
    {
        let bytes = Vec::from_slice(alloc, line)?;
        Ok(NotedLine { bytes })
    }

    pub fn as_slice(&self) -> &[u8]
        ensures { result.now ≡ self.now }
    {
        self.bytes.as_slice()
    }

    /// # Errors
    /// There is no memory for it.
    fn copied(&self, alloc: Global) -> Result<NotedLine, AllocError>
        ensures { IfOk result (λ copy. copy ≡ self.now) }
    {
        NotedLine::of(alloc, self.as_slice())
    }
}

/// An edit that was made: its line, and the scenario on its other side, with the number of the edit that led to that one.
#[derive(Drop)]
pub(crate) struct Step<const N: usize> {
    pub scenario: Scenario<N>,
    pub number: u32,
    pub line: NotedLine,
}

impl<const N: usize> Model for Step<N> {
    ghost use Rattle.pd_desk.specs.History.{StepData};

    ghost Value = { StepData };

    ghost view = { λ step. record {
      scenario = step.scenario;
      number = step.number;
      line = step.line;
    } };
}

impl<const N: usize> Step<N> {
    /// # Errors
    /// There is no memory for it.
    fn copied(&self, alloc: Global) -> Result<Step<N>, AllocError>
        ensures { IfOk result (λ copy. copy ≡ self.now) }
    {
        Ok(Step {
            scenario: copied(alloc, &self.scenario)?,
            number: self.number,
            line: self.line.copied(alloc)?,
        })
    }
}

/// The edits that were made.
#[derive(Drop)]
pub(crate) struct Notes<const N: usize> {
    /// The lines of those that can't be taken back any more.
    pub older: Vec<NotedLine>,
    /// Those that can be taken back, the latest last, each with the scenario before it.
    pub earlier: Vec<Step<N>>,
    /// Those that were taken back and can be made again, the latest last, each with the scenario after it.
    pub later: Vec<Step<N>>,
}

impl<const N: usize> Notes<N> {
    /// No edit was made yet.
    pub fn new(alloc: Global) -> Notes<N>
        ensures { notes_of result ≡ no_notes }
    {
        Notes {
            older: Vec::new(alloc),
            earlier: Vec::new(alloc),
            later: Vec::new(alloc),
        }
    }

    /// The same notes once more.
    ///
    /// # Errors
    /// There is no memory for it.
    pub fn copied(&self, alloc: Global) -> Result<Notes<N>, AllocError>
        ensures { IfOk result (λ copy. notes_of copy ≡ notes_of self.now) }
    {
        Ok(Notes {
            older: copied_lines(alloc, &self.older)?,
            earlier: copied_steps(alloc, &self.earlier)?,
            later: copied_steps(alloc, &self.later)?,
        })
    }

    /// Makes room for one edit more.
    ///
    /// # Errors
    /// There is no memory for it; nothing has changed.
    pub fn reserve(&mut self) -> Result<(), AllocError>
        ensures same { notes_of self.new ≡ notes_of self.old }
        ensures earlier { OnOk result (vec_len self.new.earlier < vec_capacity self.new.earlier) }
        ensures older { OnOk result (vec_len self.new.older < vec_capacity self.new.older) }
    {
        self.earlier.reserve(1)?;
        self.older.reserve(1)
    }

    /// Notes an edit, for which there is room. The 99 before it can be taken back too.
    pub fn note(&mut self, step: Step<N>)
        requires earlier { vec_len self.old.earlier < vec_capacity self.old.earlier }
        requires older { vec_len self.old.older < vec_capacity self.old.older }
        ensures { notes_of self.new ≡ noted (notes_of self.old) step.entry self.old.later.items }
    {
        if self.earlier.len() >= MOST_EARLIER {
            let oldest = self.earlier.remove(0);
            self.older.push_reserved(oldest.line);
        }
        self.earlier.push_reserved(step);
    }

    /// The lines of the edits that led to the scenario that stands, as an edit script.
    ///
    /// # Errors
    /// There is no memory for it.
    pub fn script(&self, alloc: Global) -> Result<Vec<u8>, AllocError>
        ensures { IfOk result (λ text. text.items ≡ script_text (notes_of self.now)) }
    {
        let mut text = Vec::new(alloc);
        push_lines(&mut text, &self.older)?;
        push_steps(&mut text, &self.earlier)?;
        Ok(text)
    }
}

/// The same lines once more.
fn copied_lines(alloc: Global, lines: &[NotedLine]) -> Result<Vec<NotedLine>, AllocError>
    ensures { IfOk result (λ copies. copies.items ≡ lines.now) }
{
    let mut copies = Vec::new(alloc);
    for line in lines {
        let copy = line.copied(alloc)?;
        copies.push(copy)?;
    }
    Ok(copies)
}

/// The same edits once more.
fn copied_steps<const N: usize>(
    alloc: Global,
    steps: &[Step<N>],
) -> Result<Vec<Step<N>>, AllocError>
    ensures { IfOk result (λ copies. copies.items ≡ steps.now) }
{
    let mut copies = Vec::new(alloc);
    for step in steps {
        let copy = step.copied(alloc)?;
        copies.push(copy)?;
    }
    Ok(copies)
}

/// Writes lines, each with a line feed behind it.
fn push_lines(text: &mut Vec<u8>, lines: &[NotedLine]) -> Result<(), AllocError>
    ensures { OnOk result (text.new.items ≡ text.old.items ++ flat_map (λ line. line ++ 10 ∷ []) lines.now) }
{
    for line in lines {
        push_line(text, line)?;
    }
    Ok(())
}

/// Writes the lines of edits.
fn push_steps<const N: usize>(text: &mut Vec<u8>, steps: &[Step<N>]) -> Result<(), AllocError>
    ensures { OnOk result (text.new.items ≡ text.old.items ++ flat_map (λ step. step.line ++ 10 ∷ []) steps.now) }
{
    for step in steps {
        push_line(text, &step.line)?;
    }
    Ok(())
}

fn push_line(text: &mut Vec<u8>, line: &NotedLine) -> Result<(), AllocError>
    ensures { OnOk result (text.new.items ≡ text.old.items ++ (line.now ++ 10 ∷ [])) }
{
    text.extend_from_slice(line.as_slice())?;
    text.extend_from_slice(b"\n")
}
