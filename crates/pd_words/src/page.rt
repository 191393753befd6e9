//! What the help of a command has: how the command is used, what stands behind its name, and its options.

/// A word that stands behind a command's name, in capitals.
#[derive(Clone, Copy)]
pub enum Word<'a> {
    /// It has to be there.
    Must(&'a str),
    /// It may be left out.
    May(&'a str),
    /// It stands once or more.
    Several(&'a str),
}

/// An option of a command. Behind its name stands that of the word behind it, where there is one, and last what it does, line by line.
#[derive(Clone, Copy)]
pub enum Choice<'a> {
    /// An option with a word behind it.
    Value(&'a str, &'a str, &'a [&'a str]),
    /// The same, which stands once or more.
    Values(&'a str, &'a str, &'a [&'a str]),
    /// The same, which may be left out or stand several times.
    Any(&'a str, &'a str, &'a [&'a str]),
    /// An option of a letter with a word behind it.
    Letter(char, &'a str, &'a [&'a str]),
    /// An option that is alone.
    Flag(&'a str, &'a [&'a str]),
    /// The same, which may be its letter, too.
    Switch(char, &'a str, &'a [&'a str]),
}

/// A command of `pdlab`, as the command line is read by it and as its help tells of it.
#[derive(Clone, Copy)]
pub struct Page<'a> {
    pub name: &'a str,
    /// What stands behind `usage: pdlab `.
    pub usage: &'a str,
    /// What it does, as the program's own help tells it, line by line.
    pub summary: &'a [&'a str],
    /// The same, as the first line of its help tells it.
    pub title: &'a str,
    pub words: &'a [Word<'a>],
    /// What stands before the list of the options.
    pub about: &'a str,
    /// From where on the list says what an option does.
    pub column: usize,
    pub options: &'a [Choice<'a>],
    /// What stands behind the list.
    pub end: &'a str,
}
