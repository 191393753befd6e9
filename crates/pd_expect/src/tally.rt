//! How many lines of a test script passed, failed and were refused.

ghost use Rattle.std.specs.Prelude.{◌≡◌, ◌++◌, OnOk};
ghost use Rattle.pd_expect.specs.Cases.{count_of, is_of_kind, no_test, tally_of};
ghost use Rattle.pd_expect.specs.Words.{refused_words, tally_object, tally_words};

use crate::case::{Case, Verdict};
use pd_tell::{push_number, push_number_member};
use std::alloc::AllocError;

/// How many expectations passed and failed, and how many lines were refused.
#[derive(Clone, Copy, Debug, PartialEq, Eq)]
pub struct TestTally {
    pub passed: u64,
    pub failed: u64,
    pub refused: u64,
}

/// What a case may be counted as.
#[derive(Clone, Copy, Debug)]
pub(crate) enum Kind {
    Passed,
    Failed,
    Refused,
}

/// Whether a line counts so.
fn is_of_kind(kind: Kind, verdict: &Verdict) -> bool
    ensures { result ≡ is_of_kind kind verdict.now }
{
    match (kind, verdict) {
        (Kind::Passed, Verdict::Passed)
        | (Kind::Failed, Verdict::Failed { .. })
        | (Kind::Refused, Verdict::Refused { .. }) => true,
        _ => false,
    }
}

/// How many of some cases are of a kind.
pub(crate) fn count_of(kind: Kind, cases: &[Case]) -> usize
    ensures { result ≡ count_of kind cases.now }
{
    let mut count = 0;
    for case in cases {
        if is_of_kind(kind, &case.verdict) {
            count += 1;
        }
    }
    count
}

impl TestTally {
    /// No line so far.
    pub fn none() -> TestTally
        ensures { result ≡ no_test }
    {
        TestTally {
            passed: 0,
            failed: 0,
            refused: 0,
        }
    }

    /// How many of some cases there are of each kind.
    pub fn of(cases: &[Case]) -> TestTally
        ensures { result ≡ tally_of cases.now }
    {
        TestTally {
            passed: count_of(Kind::Passed, cases) as u64,
            failed: count_of(Kind::Failed, cases) as u64,
            refused: count_of(Kind::Refused, cases) as u64,
        }
    }

    /// Writes what all lines come to, as `12 passed, 1 failed`, with a line feed.
    ///
    /// # Errors
    /// There is no memory for it; some of it may stand in the text.
    #[tactic(auto, unfolding(crate::specs::Words::tally_words))]
    pub fn push(&self, text: &mut Vec<u8>) -> Result<(), AllocError>
        ensures { OnOk result (text.new.items ≡ text.old.items ++ tally_words self.now) }
    {
        push_number(text, self.passed)?;
        text.extend_from_slice(b" passed, ")?;
        push_number(text, self.failed)?;
        text.extend_from_slice(b" failed")?;
        push_refused(text, self.refused)
    }

    /// Writes the same as a JSON object on a line of its own.
    ///
    /// # Errors
    /// There is no memory for it; some of it may stand in the text.
    #[tactic(auto, unfolding(crate::specs::Words::tally_object))]
    pub fn push_object(&self, text: &mut Vec<u8>) -> Result<(), AllocError>
        ensures { OnOk result (text.new.items ≡ text.old.items ++ tally_object self.now) }
    {
        text.extend_from_slice(b"{\"passed\":")?;
        push_number(text, self.passed)?;
        push_number_member(text, b"failed", self.failed)?;
        push_number_member(text, b"refused", self.refused)?;
        text.extend_from_slice(b"}\n")
    }
}

/// Writes how many lines were refused, where any were, and a line feed.
fn push_refused(text: &mut Vec<u8>, refused: u64) -> Result<(), AllocError>
    ensures { OnOk result (text.new.items ≡ text.old.items ++ refused_words refused) }
{
    if refused == 0 {
        return text.extend_from_slice(b"\n");
    }
    text.extend_from_slice(b", ")?;
    push_number(text, refused)?;
    text.extend_from_slice(b" refused\n")
}
