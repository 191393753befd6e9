//! `:vary`, as the desk has it.

ghost use Rattle.std.specs.Prelude.{◌≡◌, ◌++◌, IfErr, IfOk, List, MatchResult, OnOk, Ok, map, option_map};
ghost use Rattle.pd_expect.specs.Named.{behind, trim};
ghost use Rattle.pd_vary.specs.Conditions.{asked_port};
ghost use Rattle.pd_vary.specs.Sets.{SetData, set_data};
ghost use Rattle.pd_desk.specs.Tellings.{TellsVaried};
ghost use Rattle.pd_desk.specs.Varying.{asks_by, names_in, names_of, names_told, set_by, set_sentence, set_texts, set_told};
ghost use Rattle.pd_desk.specs.Varying.{sets_before, sets_by, varied_of, varied_text};
ghost use Rattle.pd_desk.specs.Standings.{IsNotVaried, IsTold, varied_data};

use crate::OwnFault;
use crate::own::{NotDone, check_port};
use crate::tellings::varied;
use pd_port::Meter;
use pd_scenario::Scenario;
use pd_vary::{Ask, EditSet, Form, Question, SetFault, read_asks, read_set};
use std::alloc::{AllocError, Global};

/// What is measured where the line doesn't say.
const USUAL_NAMES: &[u8] = b"margin, faults, hard resets";

/// The word behind which the names stand.
const TELL: &[u8] = b" tell ";

/// What a line asks for: values of edit lines, and what is measured of each row.
#[derive(Drop)]
pub(crate) struct Varied {
    sets: Vec<EditSet>,
    asks: Vec<Ask>,
}

/// What stands behind these bytes, where the text begins with them.
fn behind<'a>(bytes: &[u8], text: &'a [u8]) -> Option<&'a [u8]>
    ensures { option_map (λ x. x.now) result ≡ behind bytes.now text.now }
{
    if text.starts_with(bytes) {
        let (_, rest) = text.split_at(bytes.len());
        Some(rest)
    } else {
        None
    }
}

/// What stands behind the word of the line.
fn varied_text(line: &[u8]) -> &[u8]
    ensures { result.now ≡ varied_text line.now }
{
    match behind(b":vary", line) {
        None => b"",
        Some(text) => text,
    }
}

/// What stands behind the first word `tell`, where it is there.
#[tactic(auto, unfolding(crate::specs::Varying::names_in))]
fn names_in(text: &[u8]) -> Option<&[u8]>
    ensures { option_map (λ x. x.now) result ≡ names_in text.now }
{
    let [_, more @ ..] = text else {
        return None;
    };
    match behind(TELL, text) {
        None => names_in(more),
        Some(names) => Some(names),
    }
}

/// What stands before it.
fn sets_before<'a>(text: &'a [u8], names: Option<&[u8]>) -> &'a [u8]
    ensures { result.now ≡ sets_before text.now (option_map (λ x. x.now) names.entry) }
{
    let Some(names) = names else {
        return text;
    };
    let place = text
        .len()
        .saturating_sub(names.len())
        .saturating_sub(TELL.len());
    let (sets, _) = text.split_at(place);
    sets
}

/// A text without the blanks around it.
fn trim(text: &[u8]) -> &[u8]
    ensures { result.now ≡ trim text.now }
{
    text.trim_ascii()
}

/// The texts of the sets, which semicolons part.
fn set_texts(alloc: Global, text: &[u8]) -> Result<Vec<&[u8]>, AllocError>
    ensures { IfOk result (λ texts. map (λ x. x.now) texts.items ≡ set_texts text.now) }
{
    text.split(|byte| *byte == b';').collect(alloc)
}

/// Why a text is no set, as `pdlab vary` says it.
fn set_sentence(fault: SetFault) -> &'static [u8]
    ensures { result.now ≡ set_sentence fault }
{
    match fault {
        SetFault::NoValues => {
            b"no `=` stands between an edit line and its values, as in `floor 1 {}=45W,60W`"
        }
        SetFault::NoPlace => {
            b"no place `{}` stands in the edit line, as in `floor 1 {}=45W,60W`"
        }
        SetFault::TwoPlaces => b"more than one place `{}` stands in the edit line",
        SetFault::NoNumber => {
            b"a value is no number that may stand in the place, or the range isn't FROM..TO/STEP"
        }
        SetFault::Backwards => b"the range ends before it begins",
        SetFault::NoStep => b"the step of the range is 0",
        SetFault::TooMany => b"the range has more than 1000000 numbers",
        SetFault::Memory => b"there is no memory for it",
    }
}

/// What is told of a text that is no set.
fn set_told(alloc: Global, text: &[u8], fault: SetFault) -> Result<Vec<u8>, AllocError>
    ensures { IfOk result (λ told. told.items ≡ set_told text.now fault) }
{
    let mut told = Vec::new(alloc);
    told.extend_from_slice(b"`")?;
    told.extend_from_slice(text)?;
    told.extend_from_slice(b"`: ")?;
    told.extend_from_slice(set_sentence(fault))?;
    told.extend_from_slice(b"\n")?;
    Ok(told)
}

/// A set, around which blanks may stand.
fn set_by(alloc: Global, text: &[u8]) -> Result<EditSet, NotDone>
    ensures ok { IfOk result (λ set. set_by text.now ≡ Ok (set_data set)) }
    ensures err { IfErr result (λ why. IsTold why (set_by text.now)) }
{
    let text = trim(text);
    match read_set(alloc, text) {
        Ok(set) => Ok(set),
        Err(SetFault::Memory) => Err(NotDone::Fault(OwnFault::Memory)),
        Err(fault) => Err(NotDone::Refused(set_told(alloc, text, fault)?)),
    }
}

/// Adds the sets of all of these texts, one after the other.
#[tactic(auto, unfolding(crate::specs::Varying::sets_by))]
fn push_sets(alloc: Global, sets: &mut Vec<EditSet>, texts: &[&[u8]]) -> Result<(), NotDone>
    ensures ok { OnOk result ((more : List SetData) × (sets_by (map (λ x. x.now) texts.now) ≡ Ok more)
        × (map set_data sets.new.items ≡ map set_data sets.old.items ++ more)) }
    ensures err { IfErr result (λ why. IsTold why (sets_by (map (λ x. x.now) texts.now))) }
{
    let [text, texts @ ..] = texts else {
        return Ok(());
    };
    let set = set_by(alloc, text)?;
    let Ok(()) = sets.push(set) else {
        return Err(NotDone::Fault(OwnFault::Memory));
    };
    push_sets(alloc, sets, texts)
}

/// The sets of a text.
fn sets_by(alloc: Global, text: &[u8]) -> Result<Vec<EditSet>, NotDone>
    ensures ok { IfOk result (λ sets. sets_by (set_texts text.now) ≡ Ok (map set_data sets.items)) }
    ensures err { IfErr result (λ why. IsTold why (sets_by (set_texts text.now))) }
{
    let texts = set_texts(alloc, text)?;
    let mut sets = Vec::new(alloc);
    push_sets(alloc, &mut sets, texts.as_slice())?;
    Ok(sets)
}

/// The names of what is measured.
fn names_of<'a>(names: Option<&'a [u8]>) -> &'a [u8]
    ensures { result.now ≡ names_of (option_map (λ x. x.now) names.entry) }
{
    match names {
        None => USUAL_NAMES,
        Some(names) => trim(names),
    }
}

/// What is told of names that name nothing, as `pdlab vary` says it.
#[tactic(auto, unfolding(crate::specs::Varying::names_told))]
fn names_told(alloc: Global, names: &[u8]) -> Result<Vec<u8>, AllocError>
    ensures { IfOk result (λ told. told.items ≡ names_told names.now) }
{
    let mut told = Vec::new(alloc);
    told.extend_from_slice(b"tell `")?;
    told.extend_from_slice(names)?;
    told.extend_from_slice(
        b"`: there are voltage, current, power, least power, greatest power, less power, more power ",
    )?;
    told.extend_from_slice(
        b"and differs until, each with the number of a port, 1 to 8, and margin, lowest at, faults and hard resets, ",
    )?;
    told.extend_from_slice(b"with commas between them\n")?;
    Ok(told)
}

/// What is measured.
fn asks_by(alloc: Global, names: Option<&[u8]>) -> Result<Vec<Ask>, NotDone>
    ensures ok { IfOk result (λ asks. asks_by (option_map (λ x. x.now) names.entry) ≡ Ok asks.items) }
    ensures err { IfErr result (λ why. IsTold why (asks_by (option_map (λ x. x.now) names.entry))) }
{
    let names = names_of(names);
    match read_asks(alloc, names)? {
        Some(asks) => Ok(asks),
        None => Err(NotDone::Refused(names_told(alloc, names)?)),
    }
}

/// Reads what a line asks for.
#[tactic(auto, unfolding(crate::specs::Varying::varied_of))]
fn read_varied(alloc: Global, line: &[u8]) -> Result<Varied, NotDone>
    ensures ok { IfOk result (λ varied. varied_of line.now ≡ Ok (varied_data varied)) }
    ensures err { IfErr result (λ why. IsTold why (varied_of line.now)) }
{
    let text = varied_text(line);
    let names = names_in(text);
    let sets = sets_by(alloc, sets_before(text, names))?;
    let asks = asks_by(alloc, names)?;
    Ok(Varied { sets, asks })
}

/// The greatest port of which something is measured, where one is.
fn asked_port(question: &Question<'_>) -> Option<u64>
    ensures { result ≡ asked_port question.now.asks.now question.now.wheres.now }
{
    match question.port() {
        None => None,
        Some(port) => Some(port as u64),
    }
}

/// The rows of the values that a line names, over a scenario, which stays as it is.
pub(crate) fn vary<const N: usize>(
    alloc: Global,
    line: &[u8],
    scenario: &Scenario<N>,
    meter: &mut Meter,
) -> Result<Vec<u8>, NotDone>
    ensures { MatchResult result (λ text. TellsVaried N scenario.now line.now text.items) (λ why. IsNotVaried N line.now why) }
{
    let asked = read_varied(alloc, line)?;
    let question = Question {
        sets: asked.sets.as_slice(),
        asks: asked.asks.as_slice(),
        wheres: &[],
        form: Form::Words,
        keeps: false,
    };
    check_port(N, asked_port(&question))?;
    let Some(text) = varied(alloc, scenario, &question, meter)? else {
        let told = Vec::from_slice(alloc, b"the values have more than 1000000 combinations\n")?;
        return Err(NotDone::Refused(told));
    };
    Ok(text)
}
