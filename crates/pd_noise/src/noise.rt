//! What is lost by lot, in which runs, and how that is told.

use pd_sweep::Choice;

/// Which packets of a run may be lost, how many 100,000ths of them are on average, and the seed of the lots.
#[derive(Clone, Copy, Debug)]
pub struct Noise {
    pub choice: Choice,
    pub share: u32,
    pub seed: u32,
}

/// So many runs from the one of a number on. The number tells apart what runs of one seed draw from.
#[derive(Clone, Copy, Debug, PartialEq, Eq)]
pub struct Runs {
    pub first: u32,
    pub count: u32,
}

/// What is told of runs.
#[derive(Clone, Copy, Debug, PartialEq, Eq)]
pub enum Telling {
    /// What all of them come to, and which is the worst.
    Report,
    /// The losses of the worst as lines of an edit script.
    Edits,
}
