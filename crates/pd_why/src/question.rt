//! What is asked.

/// For which port, numbered from 1, it is asked what bounds it: of each offer up to a time in microseconds, or of the last one.
#[derive(Clone, Copy, Debug)]
pub struct Question {
    pub port: usize,
    pub to: Option<u64>,
}
