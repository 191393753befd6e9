//! The lines that tell why a line of an edit script is refused.

ghost use Rattle.std.specs.Prelude.{◌≡◌, ◌++◌, OnOk};
ghost use Rattle.pd_explain.specs.Lines.{place_line, syntax_line};

use crate::Place;
use crate::hints::push_hint;
use crate::sentences::push_sentence;
use crate::stops::{push_syntax_hint, push_syntax_text};
use pd_scenario::Scenario;
use pd_text::Front;
use std::alloc::{AllocError, Global};

/// Writes what is said of a place at which a rule is broken, on a line of its own behind what is told first: the word that the
/// place is of, what stands there and what would be right, and which name may have been meant.
///
/// # Errors
/// There is no memory for it; some of it may stand in the text.
#[tactic(auto, unfolding(crate::specs::Lines::place_line))]
pub fn push_place<const N: usize>(
    alloc: Global,
    text: &mut Vec<u8>,
    front: &Front,
    scenario: &Scenario<N>,
    place: &Place,
) -> Result<(), AllocError>
    ensures { OnOk result (text.new.items ≡ text.old.items ++ place_line front.now N scenario.now place.now) }
{
    let mut sentence = Vec::new(alloc);
    push_sentence(&mut sentence, scenario, place)?;
    let mut hint = Vec::new(alloc);
    push_hint(&mut hint, scenario, place)?;
    let word = place.word().as_bytes();
    front.say(text, word, sentence.as_slice(), hint.as_slice())
}

/// Writes why a line is none of an edit script, on a line of its own behind what is told first: the place of the word at which it
/// stops to be one, what may stand there, what stands there, and which word may have been meant.
///
/// # Errors
/// There is no memory for it; some of it may stand in the text.
#[tactic(auto, unfolding(crate::specs::Lines::syntax_line))]
pub fn push_syntax(
    alloc: Global,
    text: &mut Vec<u8>,
    front: &Front,
    line: &[u8],
) -> Result<(), AllocError>
    ensures { OnOk result (text.new.items ≡ text.old.items ++ syntax_line front.now line.now) }
{
    let mut sentence = Vec::new(alloc);
    push_syntax_text(&mut sentence, line)?;
    let mut hint = Vec::new(alloc);
    push_syntax_hint(&mut hint, line)?;
    front.say(text, b"", sentence.as_slice(), hint.as_slice())
}
