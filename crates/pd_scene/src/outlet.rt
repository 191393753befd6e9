//! Where what a job writes goes.

/// Where the text of a job goes, and what counts the steps of its runs.
#[derive(Drop)]
pub struct Outlet<'a, W, M> {
    /// What the text is written to.
    pub writer: &'a mut W,
    /// What counts the steps.
    pub meter: &'a mut M,
}
