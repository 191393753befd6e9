//! What a telling is made of.

/// How a telling is written.
#[derive(Clone, Copy, Debug, PartialEq, Eq)]
pub enum Form {
    /// A line of words.
    Words,
    /// A JSON object on a line of its own.
    Json,
}

/// What a number counts, and so how a line shows it. The object has the bare number, in the unit that is named here.
#[derive(Clone, Copy, Debug, PartialEq, Eq)]
pub enum Unit {
    /// Nothing that has a unit, as a port or a place: `3`.
    Plain,
    /// Microseconds, shown as they are: `1500 us`.
    Microseconds,
    /// Millivolts, shown in volts with two decimal places: `9.00 V`.
    Millivolts,
    /// Milliamperes, shown in amperes with two decimal places: `2.25 A`.
    Milliamperes,
    /// Microwatts, shown in watts with four decimal places: `20.2500 W`.
    Microwatts,
}

/// A name that a list may have.
#[derive(Clone, Copy, Debug)]
pub struct ListName<'a> {
    /// Whether the list has it.
    pub is_listed: bool,
    /// What a line says where the list has it.
    pub words: &'a [u8],
    /// The name in the object.
    pub name: &'a [u8],
}

/// A piece of a telling. Words and names are written as they stand, so keys and names have no byte that JSON escapes; texts may
/// have any, and the object has them as JSON strings.
#[derive(Clone, Copy, Debug)]
pub enum Piece<'a> {
    /// What kind of telling it is: the object's first member, which the line leaves out.
    Kind(&'a [u8]),
    /// The name of the file that is told of: the object's first member, and first in the line.
    File(&'a [u8]),
    /// A number: the words before it in the line, its key in the object, its unit, and the number.
    Number(&'a [u8], &'a [u8], Unit, u64),
    /// A name: what the line says, the key in the object, and the name.
    Name(&'a [u8], &'a [u8], &'a [u8]),
    /// Whether something holds: what the line says where it does, what it says where it doesn't, and the key in the object.
    Flag(&'a [u8], &'a [u8], &'a [u8], bool),
    /// The names of a list: its key in the object, and the names that it may have.
    Names(&'a [u8], &'a [ListName<'a>]),
    /// A text, which is left out where it is empty: the words before it in the line, its key in the object, and the text.
    Text(&'a [u8], &'a [u8], &'a [u8]),
    /// A whole number, which may be missing: the words before it in the line, its key in the object, and the number.
    Whole(&'a [u8], &'a [u8], Option<i64>),
    /// Words of the line, which the object leaves out.
    LineWords(&'a [u8]),
    /// A number of the line, which the object leaves out: the words before it, its unit, and the number.
    LineNumber(&'a [u8], Unit, u64),
    /// A number of the object, which the line leaves out: its key, and the number.
    MemberNumber(&'a [u8], u64),
    /// A text of the object, which the line leaves out, and the object where it is empty: its key, and the text.
    MemberText(&'a [u8], &'a [u8]),
    /// That the object has no value behind a key: `null`. The line leaves it out.
    MemberNull(&'a [u8]),
}
