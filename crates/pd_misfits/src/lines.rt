//! In which lines of a scenario file its tables and keys stand.

ghost use Rattle.std.specs.Prelude.{◌≡◌, ◌-◌, ◌+◌, IfOk, OnOk, option_map, drop, take};
ghost use Rattle.std.specs.List.{find};
ghost use Rattle.pd_misfits.specs.Marks.{AreMarks, IsMark, is_key_of, is_named, line_of, line_in, line_behind, starts_of};

use crate::earlier::name_of;
use crate::layout::{Start, has_long_quotes, next_depth, start_of};
use std::alloc::{AllocError, Global};
use std::marker::Model;

/// A line that begins with a key or with the head of a table.
#[derive(Clone, Copy, Debug)]
pub struct Mark {
    /// Where it begins in the text.
    pub at: usize,
    /// Its number, from 1.
    pub line: u64,
    /// Of a key, how many marks stand up to the head of its table; 0 of a head, and of a key of the top table.
    pub table: usize,
}

/// The lines of a file that begin with a key or with the head of a table, as far as these are found.
#[derive(Drop)]
pub struct Lines {
    text: Vec<u8>,
    marks: Vec<Mark>,
    tops: Vec<Mark>,
    ports: Vec<usize>,
    cables: Vec<usize>,
    sinks: Vec<usize>,
    events: Vec<usize>,
}

impl Model for Lines {
    ghost use Rattle.pd_misfits.specs.Marks.{LinesData};

    ghost Value = { LinesData };

    ghost view = { λ l. record {
      text = l.text.items;
      marks = l.marks.items;
      tops = l.tops.items;
      ports = l.ports.items;
      cables = l.cables.items;
      sinks = l.sinks.items;
      events = l.events.items;
    } };
}

/// So many lines of a table are looked through.
const MOST_KEYS: usize = 64;

/// The lists of tables.
#[derive(Clone, Copy)]
enum List {
    Port,
    Cable,
    Sink,
    Event,
    Other,
}

/// The list of a name.
fn list_of(name: &[u8]) -> List {
    match name {
        b"port" => List::Port,
        b"cable" => List::Cable,
        b"sink" => List::Sink,
        b"event" => List::Event,
        _ => List::Other,
    }
}

/// Where the walk over the lines of a text is.
#[derive(Clone, Copy)]
struct Walk {
    // How many marks stand up to the head of the table; 0 at the top.
    table: usize,
    // In how many brackets the line begins.
    depth: u64,
    // Whether what follows can't be told apart.
    is_lost: bool,
}

/// The marks from one on.
fn marks_from(marks: &[Mark], start: usize) -> &[Mark]
    ensures { result.now ≡ drop start marks.now }
{
    if start <= marks.len() {
        &marks[start..]
    } else {
        &[]
    }
}

/// The first marks, at most so many.
fn first_marks(marks: &[Mark], most: usize) -> &[Mark]
    ensures { result.now ≡ take most marks.now }
{
    if marks.len() <= most {
        marks
    } else {
        &marks[..most]
    }
}

/// Whether a line begins with a name.
fn is_named(text: &[u8], name: &[u8], mark: &Mark) -> bool
    ensures { result ≡ is_named text.now name.now mark.now }
{
    if mark.at <= text.len() {
        let (_, line) = text.split_at(mark.at);
        name_of(line) == name
    } else {
        name_of(&[]) == name
    }
}

/// Whether a line begins with a key of a table.
fn is_key_of(text: &[u8], table: usize, name: &[u8], mark: &Mark) -> bool
    ensures { result ≡ is_key_of text.now table name.now mark.now }
{
    mark.table == table && is_named(text, name, mark)
}

/// The first line that begins with a name.
fn named<'a>(text: &[u8], name: &[u8], marks: &'a [Mark]) -> Option<&'a Mark>
    ensures { option_map (λ x. x.now) result ≡ find (is_named text.now name.now) marks.now }
{
    marks.iter().find(|mark| is_named(text, name, mark))
}

/// The first line that begins with a key of a table.
fn key_of<'a>(text: &[u8], table: usize, name: &[u8], marks: &'a [Mark]) -> Option<&'a Mark>
    ensures { option_map (λ x. x.now) result ≡ find (is_key_of text.now table name.now) marks.now }
{
    marks.iter().find(|mark| is_key_of(text, table, name, mark))
}

/// The number of a line.
fn line_in(mark: Option<&Mark>) -> Option<u64>
    ensures { result ≡ line_in (option_map (λ x. x.now) mark.entry) }
{
    match mark {
        Some(mark) => Some(mark.line),
        None => None,
    }
}

impl Lines {
    /// No line of a text yet.
    fn new(alloc: Global, text: &[u8]) -> Result<Lines, AllocError>
        ensures { IfOk result (AreMarks text.now) }
    {
        let mut copy = Vec::new(alloc);
        copy.extend_from_slice(text)?;
        Ok(Lines {
            text: copy,
            marks: Vec::new(alloc),
            tops: Vec::new(alloc),
            ports: Vec::new(alloc),
            cables: Vec::new(alloc),
            sinks: Vec::new(alloc),
            events: Vec::new(alloc),
        })
    }

    /// Where the tables of a list begin.
    fn starts_of(&self, table: &str) -> &[usize]
        ensures { result.now ≡ starts_of self.now table.now }
    {
        match table {
            "port" => self.ports.as_slice(),
            "cable" => self.cables.as_slice(),
            "sink" => self.sinks.as_slice(),
            _ => self.events.as_slice(),
        }
    }

    /// Whether no table of a list is noted yet; of another list, always.
    fn is_new(&self, list: List) -> bool {
        match list {
            List::Port => self.ports.is_empty(),
            List::Cable => self.cables.is_empty(),
            List::Sink => self.sinks.is_empty(),
            List::Event => self.events.is_empty(),
            List::Other => true,
        }
    }

    /// Notes where the keys of one more table of a list begin.
    fn push_start(&mut self, list: List, start: usize) -> Result<(), AllocError>
        ensures text { self.new.text ≡ self.old.text }
        ensures marks { self.new.marks ≡ self.old.marks }
        ensures tops { self.new.tops ≡ self.old.tops }
    {
        match list {
            List::Port => self.ports.push(start)?,
            List::Cable => self.cables.push(start)?,
            List::Sink => self.sinks.push(start)?,
            List::Event => self.events.push(start)?,
            List::Other => {}
        }
        Ok(())
    }

    /// Notes the first head of a list among the lines of the top table.
    fn push_first(&mut self, text: &[u8], list: List, mark: Mark) -> Result<(), AllocError>
        requires marks { AreMarks text.now self.old }
        requires mark { IsMark text.now mark }
        ensures { OnOk result (AreMarks text.now self.new) }
    {
        if self.is_new(list) {
            self.tops.push(mark)?;
        }
        Ok(())
    }

    /// Notes the head of a table of a list, and answers where its keys begin.
    fn push_head(&mut self, text: &[u8], list: List, mark: Mark) -> Result<usize, AllocError>
        requires marks { AreMarks text.now self.old }
        requires mark { IsMark text.now mark }
        ensures { OnOk result (AreMarks text.now self.new) }
    {
        self.push_first(text, list, mark)?;
        self.marks.push(mark)?;
        let start = self.marks.len();
        self.push_start(list, start)?;
        Ok(start)
    }

    /// Notes a key of the table whose keys begin there, or of the top.
    fn push_key(&mut self, text: &[u8], table: usize, mark: Mark) -> Result<(), AllocError>
        requires marks { AreMarks text.now self.old }
        requires mark { IsMark text.now mark }
        ensures { OnOk result (AreMarks text.now self.new) }
    {
        if table == 0 {
            self.tops.push(mark)?;
        } else {
            let Mark { at, line, table: _ } = mark;
            self.marks.push(Mark { at, line, table })?;
        }
        Ok(())
    }

    /// Notes what a line begins with, which has these bytes; the answer is where the next line is.
    fn push_line(
        &mut self,
        text: &[u8],
        walk: Walk,
        mark: Mark,
        bytes: &[u8],
    ) -> Result<Walk, AllocError>
        requires marks { AreMarks text.now self.old }
        requires mark { IsMark text.now mark }
        ensures { OnOk result (AreMarks text.now self.new) }
    {
        let mut next = walk;
        next.depth = next_depth(bytes, walk.depth);
        if walk.is_lost || walk.depth > 0 {
            return Ok(next);
        }
        match start_of(bytes) {
            Start::Head => next.table = self.push_head(text, list_of(name_of(bytes)), mark)?,
            Start::Key => self.push_key(text, walk.table, mark)?,
            Start::Other => {}
            Start::Unknown => next.is_lost = true,
        }
        Ok(next)
    }

    /// The lines of a text. Those behind one that can't be told apart aren't looked at, and none of a text that has three quotes in a
    /// row.
    ///
    /// # Errors
    /// There is no memory.
    pub fn of(alloc: Global, text: &[u8]) -> Result<Lines, AllocError>
        ensures { IfOk result (AreMarks text.now) }
    {
        let mut lines = Lines::new(alloc, text)?;
        let mut walk = Walk {
            table: 0,
            depth: 0,
            is_lost: has_long_quotes(text),
        };
        let mut mark = Mark {
            at: 0,
            line: 1,
            table: 0,
        };
        for (i, byte) in text.iter().enumerate() {
            if *byte == b'\n' {
                walk = lines.push_line(text, walk, mark, &text[mark.at..i])?;
                mark = Mark {
                    at: i + 1,
                    line: mark.line + 1,
                    table: 0,
                };
            }
        }
        lines.push_line(text, walk, mark, &text[mark.at..])?;
        Ok(lines)
    }

    /// The line behind the head of a table: of a key, or of the head where the key is empty.
    fn line_behind(&self, table: &str, key: &[u8], start: Option<usize>) -> Option<u64>
        ensures { result ≡ line_behind self.now table.now key.now start }
    {
        let (text, marks) = (self.text.as_slice(), self.marks.as_slice());
        let start = start?;
        if key.is_empty() {
            let head = first_marks(marks_from(marks, start.saturating_sub(1)), 1);
            return line_in(named(text, table.as_bytes(), head));
        }
        let keys = first_marks(marks_from(marks, start), MOST_KEYS);
        line_in(key_of(text, start, key, keys))
    }

    /// The line of a key of a table, by the table's number among those of its list, from 1; of its head where the key is empty. The
    /// top table has no name.
    pub fn line(&self, table: &str, number: u64, key: &[u8]) -> Option<u64>
        ensures { result ≡ line_of self.now table.now number key.now }
    {
        if table.is_empty() {
            let tops = first_marks(self.tops.as_slice(), MOST_KEYS);
            return line_in(named(self.text.as_slice(), key, tops));
        }
        let place = number.saturating_sub(1) as usize;
        let start = self.starts_of(table).get(place).copied();
        self.line_behind(table, key, start)
    }
}
