//! Where a desk writes.

/// Where a desk writes: answers, beside them why lines are refused or did nothing, and the scenarios that are saved.
#[derive(Drop)]
pub struct Outlets<W, E, S> {
    pub answers: W,
    pub reasons: E,
    pub shelf: S,
}
