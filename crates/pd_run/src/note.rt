//! What entries leave to be shown.

ghost use Rattle.std.specs.Prelude.{◌≡◌, ◌↔◌, ◌<◌, IsTrue};
ghost use Rattle.pd_run.specs.Notes.{Leaves, Have, IsNextMarked, marks_of};
ghost use Rattle.pd_run.specs.declared.note.Note.{Note as NoteData};
ghost use Rattle.pd_run.specs.declared.note.Note.TheVariants as notes;

use pd_port::Entry;

/// What an entry may leave to be shown.
#[derive(Clone, Copy, Debug, PartialEq, Eq)]
pub enum Note {
    /// The change of a contract.
    Contract,
    /// One fault or more.
    Fault,
    /// A packet that starts on this port, the ports being numbered from 1.
    Packet { port: usize },
}

impl Note {
    /// Whether an entry of a port leaves such a note.
    pub fn is_left_by(self, port: usize, entry: &Entry) -> bool
        ensures { IsTrue result ↔ Leaves self (port, entry.now) }
    {
        match self {
            Note::Contract => entry.contract.is_some(),
            Note::Fault => !entry.faults.is_empty(),
            Note::Packet { port: shown } => port == shown && entry.start.is_some(),
        }
    }
}

/// Which notes an entry leaves, in four bytes: to be kept apart from the entries, so that whoever looks for a note reads these
/// alone.
#[derive(Clone, Copy, Debug, PartialEq, Eq)]
pub struct Marks {
    contract: bool,
    fault: bool,
    packet: bool,
    port: u8,
}

impl Marks {
    /// The marks of an entry of a port.
    pub fn of(port: usize, entry: &Entry) -> Marks
        requires { port < 256 }
        ensures marks { result ≡ marks_of (port, entry.now) }
        ensures tell { (note : NoteData) → Have result note ↔ Leaves note (port, entry.now) }
    {
        Marks {
            contract: entry.contract.is_some(),
            fault: !entry.faults.is_empty(),
            packet: entry.start.is_some(),
            port: port as u8,
        }
    }

    /// Whether the entry leaves such a note.
    pub fn have(self, note: Note) -> bool
        ensures { IsTrue result ↔ Have self note }
    {
        match note {
            Note::Contract => self.contract,
            Note::Fault => self.fault,
            Note::Packet { port } => self.packet && usize::from(self.port) == port,
        }
    }
}

/// The first place from one on whose marks have such a note, or the number of the marks where none have it.
pub fn next_marked(marks: &[Marks], note: Note, from: usize) -> usize
    ensures { IsNextMarked note marks.now from result }
{
    // A run has many marks, so which note is wanted is told once, and not for each of them.
    match note {
        Note::Contract => next_contract(marks, from),
        Note::Fault => next_fault(marks, from),
        Note::Packet { port } => next_packet(marks, port, from),
    }
}

fn next_contract(marks: &[Marks], from: usize) -> usize
    ensures { IsNextMarked notes.Contract marks.now from result }
{
    let mut at = from.min(marks.len());
    while at < marks.len() && !marks[at].contract {
        at += 1;
    }
    at
}

fn next_fault(marks: &[Marks], from: usize) -> usize
    ensures { IsNextMarked notes.Fault marks.now from result }
{
    let mut at = from.min(marks.len());
    while at < marks.len() && !marks[at].fault {
        at += 1;
    }
    at
}

fn next_packet(marks: &[Marks], port: usize, from: usize) -> usize
    ensures { IsNextMarked (notes.Packet port) marks.now from result }
{
    let mut at = from.min(marks.len());
    while at < marks.len() && !(marks[at].packet && usize::from(marks[at].port) == port) {
        at += 1;
    }
    at
}
