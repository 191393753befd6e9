//! How what is told is written.

use pd_text::Form;

/// How an edit script is explained.
#[derive(Clone, Copy)]
pub struct Telling<'a> {
    /// The name of the scenario's file.
    pub file: &'a [u8],
    /// The name of the script.
    pub edits: &'a [u8],
    /// How each place, and each warning, is written.
    pub form: Form,
    /// Whether what the scenario is warned of is told too.
    pub warns: bool,
}
