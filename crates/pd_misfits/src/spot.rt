//! Where something is told of: in a scenario file, in one of its tables.

ghost use Rattle.std.specs.Prelude.{◌≡◌, IfOk, OnOk, ◌++◌, map};
ghost use Rattle.pd_text.specs.Pieces.{piece_of};
ghost use Rattle.pd_text.specs.Fronts.{front_with};
ghost use Rattle.pd_misfits.specs.Lines.{head_line, line};
ghost use Rattle.pd_misfits.specs.Spots.{file_spot, line_pieces, spot_front, spot_in};

use crate::lines::Lines;
use pd_scenario_tables::ScenarioFault;
use pd_text::{Front, Piece, Unit};
use std::alloc::{AllocError, Global};
use std::marker::Model;

/// A scenario file that is told of.
#[derive(Drop)]
pub struct File {
    front: Front,
    lines: Lines,
}

impl Model for File {
    ghost use Rattle.pd_misfits.specs.Spots.{FileData};

    ghost Value = { FileData };

    ghost view = { λ f. record { front = f.front; lines = f.lines } };
}

impl File {
    /// A file: what is told first of it, and its lines.
    pub fn new(front: Front, lines: Lines) -> File
        ensures { result ≡ record { front = front; lines = lines } }
    {
        File { front, lines }
    }

    /// What is told first of it.
    pub fn front(&self) -> &Front
        ensures { result.now ≡ self.now.front }
    {
        &self.front
    }
}

/// A place of a file at which a refusal applies: a table, which has no name at the top, its number among those of its list, from 1,
/// and what is told of it.
#[derive(Drop)]
pub struct Spot<'a> {
    file: &'a File,
    fault: ScenarioFault,
    table: &'a str,
    number: u64,
    pieces: Vec<Piece<'a>>,
}

impl<'a> Model for Spot<'a> {
    ghost use Rattle.std.specs.Prelude.{map};
    ghost use Rattle.pd_text.specs.Pieces.{piece_of};
    ghost use Rattle.pd_misfits.specs.Spots.{SpotData};

    ghost Value = { SpotData };

    ghost view = { λ s. record {
      file = s.file.now;
      refusal = s.fault;
      table = s.table.now;
      number = s.number;
      pieces = map piece_of s.pieces.items;
    } };
}

/// What is told first of a line of a file.
fn line_front(alloc: Global, front: &Front, line: Option<u64>) -> Result<Front, AllocError>
    ensures { IfOk result (λ own. own ≡ front_with front.now (line_pieces line)) }
{
    match line {
        None => front.with(alloc, &[]),
        Some(line) => front.with(alloc, &[Piece::Number(b":", b"line", Unit::Plain, line)]),
    }
}

impl<'a> Spot<'a> {
    /// The top table of a file.
    pub(crate) fn of_file(alloc: Global, file: &'a File, fault: ScenarioFault) -> Spot<'a>
        ensures { result ≡ file_spot file.now fault }
    {
        Spot {
            file,
            fault,
            table: "",
            number: 0,
            pieces: Vec::new(alloc),
        }
    }

    /// A table of the same file.
    pub(crate) fn table(
        &self,
        alloc: Global,
        table: &'a str,
        number: u64,
        pieces: &[Piece<'a>],
    ) -> Result<Spot<'a>, AllocError>
        ensures { IfOk result (λ own. own ≡ spot_in self.now table.now number (map piece_of pieces.now)) }
    {
        let mut own = Vec::new(alloc);
        own.extend_from_slice(pieces)?;
        Ok(Spot {
            file: self.file,
            fault: self.fault,
            table,
            number,
            pieces: own,
        })
    }

    /// What is told first of a key there, or of the table where the key is empty.
    #[tactic(auto, unfolding(crate::specs::Spots::spot_front))]
    pub(crate) fn front(&self, alloc: Global, key: &[u8]) -> Result<Front, AllocError>
        ensures { IfOk result (λ front. front ≡ spot_front self.now key.now) }
    {
        let file = self.file;
        let line = file.lines.line(self.table, self.number, key);
        let front = line_front(alloc, &file.front, line)?;
        let refused = front.refused(alloc, self.fault.number() as u64)?;
        refused.with(alloc, self.pieces.as_slice())
    }

    /// Writes a sentence of a key there, behind what is told first of the key's line, and behind it what is likelier meant, where that
    /// isn't empty.
    ///
    /// # Errors
    /// There is no memory; some of the line may stand in the text.
    #[tactic(auto, unfolding(crate::specs::Lines::line))]
    pub fn push_line(
        &self,
        alloc: Global,
        text: &mut Vec<u8>,
        key: &[u8],
        sentence: &[u8],
        hint: &[u8],
    ) -> Result<(), AllocError>
        ensures { OnOk result (text.new.items ≡ text.old.items ++ line self.now key.now sentence.now hint.now) }
    {
        let front = self.front(alloc, key)?;
        front.say(text, key, sentence, hint)
    }

    /// Writes a sentence of a key that isn't there, behind what is told first of the table's head.
    #[tactic(auto, unfolding(crate::specs::Lines::head_line))]
    pub(crate) fn push_head_line(
        &self,
        alloc: Global,
        text: &mut Vec<u8>,
        key: &[u8],
        sentence: &[u8],
    ) -> Result<(), AllocError>
        ensures { OnOk result (text.new.items ≡ text.old.items ++ head_line self.now key.now sentence.now) }
    {
        let front = self.front(alloc, b"")?;
        front.say(text, key, sentence, b"")
    }
}
