//! What is said of a place at which a rule is broken.

ghost use Rattle.std.specs.Prelude.{◌≡◌, ◌++◌, OnOk, codes, decimal};
ghost use Rattle.pd_explain.specs.Sentences.{number_word, of_supply, counted_word, known_id_text, port_text, cable_text, sink_text};
ghost use Rattle.pd_explain.specs.Sentences.{user_text, number_text, next_supply_text, floors_text, sentence, event_ids, cable_names};
ghost use Rattle.pd_explain.specs.Sentences.{sink_names, new_id_text, changed_text, rating_text, count_text, first_supply_text};
ghost use Rattle.pd_explain.specs.Sentences.{room_text, word_text, is_text, before_text, no_cable_text};
ghost use Rattle.pd_explain.specs.Sentences.{no_sink_text, no_event_text, word_at};

use crate::ranges::push_out;
use crate::texts::{
    push_behind, push_between, push_cables, push_ids, push_number, push_sinks, push_sum,
};
use crate::{Counted, NumberWord, Place};
use pd_scenario::{Name, Quantity, Scenario};
use std::alloc::AllocError;

impl NumberWord {
    /// The word by which docs/FORMATS.md calls the number.
    fn text(self) -> &'static str
        ensures { result.now ≡ number_word self }
    {
        match self {
            NumberWord::Id => "ID",
            NumberWord::At => "AT",
            NumberWord::Mw => "MW",
            NumberWord::Place => "PLACE",
            NumberWord::Mask => "MASK",
            NumberWord::Max => "MAX",
            NumberWord::Demand => "DEMAND",
            NumberWord::Mv { .. } => "MV",
            NumberWord::Ma { .. } => "MA",
        }
    }
}

impl Place {
    /// The word of the line that it is of, where that is one that stands for a number.
    pub(crate) fn word(&self) -> &'static str
        ensures { result.now ≡ word_at self.now }
    {
        match self {
            Place::Number { word, .. } => word.text(),
            Place::Rating { .. } => "RATING",
            Place::FirstSupply { .. } | Place::NextSupply { .. } => "MV",
            _ => "",
        }
    }
}

impl Counted {
    /// What there is so much of, behind its number.
    fn text(self) -> &'static str
        ensures { result.now ≡ counted_word self }
    {
        match self {
            Counted::Events => " events",
            Counted::Cables => " cables",
            Counted::Sinks => " sinks",
        }
    }
}

/// Writes of which supply a word is.
fn push_supply(text: &mut Vec<u8>, word: NumberWord) -> Result<(), AllocError>
    ensures { OnOk result (text.new.items ≡ text.old.items ++ of_supply word) }
{
    match word {
        NumberWord::Mv { supply } | NumberWord::Ma { supply } => {
            text.extend_from_slice(b" of supply ")?;
            push_number(text, supply as u64)
        }
        _ => Ok(()),
    }
}

/// Writes words.
fn push_words(text: &mut Vec<u8>, front: &str, middle: &str, back: &str) -> Result<(), AllocError>
    ensures { OnOk result (text.new.items ≡ text.old.items ++ (front.now ++ (middle.now ++ back.now))) }
{
    text.extend_from_slice(front.as_bytes())?;
    text.extend_from_slice(middle.as_bytes())?;
    text.extend_from_slice(back.as_bytes())
}

#[tactic(auto, unfolding(crate::specs::Sentences::new_id_text))]
fn push_new_id(text: &mut Vec<u8>, id: u64) -> Result<(), AllocError>
    ensures { OnOk result (text.new.items ≡ text.old.items ++ new_id_text id) }
{
    push_between(text, "event ", id, " is there already")
}

#[tactic(auto, unfolding(crate::specs::Sentences::changed_text))]
fn push_changed(text: &mut Vec<u8>, id: u64) -> Result<(), AllocError>
    ensures { OnOk result (text.new.items ≡ text.old.items ++ changed_text id) }
{
    push_between(text, "event ", id, " is a change of the budget, on no port")
}

#[tactic(auto, unfolding(crate::specs::Sentences::rating_text))]
fn push_rating(text: &mut Vec<u8>, rating: u64) -> Result<(), AllocError>
    ensures { OnOk result (text.new.items ≡ text.old.items ++ rating_text rating) }
{
    push_between(text, "`RATING` is ", rating, ", neither 3000 nor 5000 mA")
}

#[tactic(auto, unfolding(crate::specs::Sentences::count_text))]
fn push_count(text: &mut Vec<u8>, count: usize) -> Result<(), AllocError>
    ensures { OnOk result (text.new.items ≡ text.old.items ++ count_text count) }
{
    push_between(text, "there are ", count as u64, " supplies, not 1 to 7")
}

#[tactic(auto, unfolding(crate::specs::Sentences::first_supply_text))]
fn push_first_supply(text: &mut Vec<u8>, mv: u64) -> Result<(), AllocError>
    ensures { OnOk result (text.new.items ≡ text.old.items ++ first_supply_text mv) }
{
    push_between(text, "`MV` of supply 1 is ", mv, ", not 5000 mV")
}

#[tactic(auto, unfolding(crate::specs::Sentences::no_event_text))]
fn push_no_event(text: &mut Vec<u8>, id: u64) -> Result<(), AllocError>
    ensures { OnOk result (text.new.items ≡ text.old.items ++ no_event_text id) }
{
    push_behind(text, "no event is ", id)
}

#[tactic(auto, unfolding(crate::specs::Sentences::known_id_text))]
fn push_known_id<const N: usize>(
    text: &mut Vec<u8>,
    scenario: &Scenario<N>,
    id: u64,
) -> Result<(), AllocError>
    ensures { OnOk result (text.new.items ≡ text.old.items ++ known_id_text (event_ids scenario.now) id) }
{
    push_no_event(text, id)?;
    push_ids(text, scenario.events())
}

#[tactic(auto, unfolding(crate::specs::Sentences::port_text))]
fn push_port(text: &mut Vec<u8>, ports: usize, port: u64) -> Result<(), AllocError>
    ensures { OnOk result (text.new.items ≡ text.old.items ++ port_text ports port) }
{
    push_between(text, "no port is ", port, "; the last is ")?;
    push_number(text, ports as u64)
}

#[tactic(auto, unfolding(crate::specs::Sentences::no_cable_text))]
fn push_no_cable(text: &mut Vec<u8>, name: &Name) -> Result<(), AllocError>
    ensures { OnOk result (text.new.items ≡ text.old.items ++ no_cable_text name.now) }
{
    push_words(text, "no cable is named `", name.as_str(), "`")
}

#[tactic(auto, unfolding(crate::specs::Sentences::cable_text))]
fn push_cable<const N: usize>(
    text: &mut Vec<u8>,
    scenario: &Scenario<N>,
    name: &Name,
) -> Result<(), AllocError>
    ensures { OnOk result (text.new.items ≡ text.old.items ++ cable_text (cable_names scenario.now) name.now) }
{
    push_no_cable(text, name)?;
    push_cables(text, scenario.cables())
}

#[tactic(auto, unfolding(crate::specs::Sentences::no_sink_text))]
fn push_no_sink(text: &mut Vec<u8>, name: &Name) -> Result<(), AllocError>
    ensures { OnOk result (text.new.items ≡ text.old.items ++ no_sink_text name.now) }
{
    push_words(text, "no sink is named `", name.as_str(), "`")
}

#[tactic(auto, unfolding(crate::specs::Sentences::sink_text))]
fn push_sink<const N: usize>(
    text: &mut Vec<u8>,
    scenario: &Scenario<N>,
    name: &Name,
) -> Result<(), AllocError>
    ensures { OnOk result (text.new.items ≡ text.old.items ++ sink_text (sink_names scenario.now) name.now) }
{
    push_no_sink(text, name)?;
    push_sinks(text, scenario.sinks())
}

#[tactic(auto, unfolding(crate::specs::Sentences::user_text))]
fn push_user(text: &mut Vec<u8>, id: u32, at: u32) -> Result<(), AllocError>
    ensures { OnOk result (text.new.items ≡ text.old.items ++ user_text id at) }
{
    push_between(text, "event ", u64::from(id), " at ")?;
    push_number(text, u64::from(at))?;
    text.extend_from_slice(b" names it")
}

/// Writes a word, and of which supply it is.
#[tactic(auto, unfolding(crate::specs::Sentences::word_text))]
fn push_word(text: &mut Vec<u8>, word: NumberWord) -> Result<(), AllocError>
    ensures { OnOk result (text.new.items ≡ text.old.items ++ word_text word) }
{
    push_words(text, "`", word.text(), "`")?;
    push_supply(text, word)
}

#[tactic(auto, unfolding(crate::specs::Sentences::is_text))]
fn push_is(text: &mut Vec<u8>, value: u64) -> Result<(), AllocError>
    ensures { OnOk result (text.new.items ≡ text.old.items ++ is_text value) }
{
    push_behind(text, " is ", value)
}

#[tactic(auto, unfolding(crate::specs::Sentences::number_text))]
fn push_value(
    text: &mut Vec<u8>,
    word: NumberWord,
    quantity: Quantity,
    value: u64,
) -> Result<(), AllocError>
    ensures { OnOk result (text.new.items ≡ text.old.items ++ number_text word quantity value) }
{
    push_word(text, word)?;
    push_is(text, value)?;
    push_out(text, quantity, value)
}

#[tactic(auto, unfolding(crate::specs::Sentences::before_text))]
fn push_before(text: &mut Vec<u8>, before: u64) -> Result<(), AllocError>
    ensures { OnOk result (text.new.items ≡ text.old.items ++ before_text before) }
{
    push_between(text, ", not above ", before, " mV before it")
}

#[tactic(auto, unfolding(crate::specs::Sentences::next_supply_text))]
fn push_next_supply(
    text: &mut Vec<u8>,
    supply: usize,
    mv: u64,
    before: u64,
) -> Result<(), AllocError>
    ensures { OnOk result (text.new.items ≡ text.old.items ++ next_supply_text supply mv before) }
{
    push_word(text, NumberWord::Mv { supply })?;
    push_is(text, mv)?;
    push_before(text, before)
}

/// Writes the least budget.
fn push_least(text: &mut Vec<u8>, budget_mw: u64) -> Result<(), AllocError>
    ensures { OnOk result (text.new.items
        ≡ text.old.items ++ (codes " mW, above the least budget, " ++ (decimal budget_mw ++ codes " mW"))) }
{
    push_between(text, " mW, above the least budget, ", budget_mw, " mW")
}

#[tactic(auto, unfolding(crate::specs::Sentences::floors_text))]
fn push_floors(text: &mut Vec<u8>, floors_mw: u128, budget_mw: u64) -> Result<(), AllocError>
    ensures { OnOk result (text.new.items ≡ text.old.items ++ floors_text floors_mw budget_mw) }
{
    text.extend_from_slice(b"the floors add to ")?;
    push_sum(text, floors_mw)?;
    push_least(text, budget_mw)
}

#[tactic(auto, unfolding(crate::specs::Sentences::room_text))]
fn push_room(text: &mut Vec<u8>, counted: Counted, count: usize) -> Result<(), AllocError>
    ensures { OnOk result (text.new.items ≡ text.old.items ++ room_text counted count) }
{
    push_between(text, "there are ", count as u64, counted.text())?;
    text.extend_from_slice(b" already")
}

/// Writes what is said of a place at which a rule is broken: what stands there, and what would be right.
pub(crate) fn push_sentence<const N: usize>(
    text: &mut Vec<u8>,
    scenario: &Scenario<N>,
    place: &Place,
) -> Result<(), AllocError>
    ensures { OnOk result (text.new.items ≡ text.old.items ++ sentence N scenario.now place.now) }
{
    match place {
        Place::NewId { id } => push_new_id(text, *id),
        Place::KnownId { id } => push_known_id(text, scenario, *id),
        Place::Port { port } => push_port(text, N, *port),
        Place::Changed { id } => push_changed(text, *id),
        Place::Cable { name } => push_cable(text, scenario, name),
        Place::Sink { name } => push_sink(text, scenario, name),
        Place::User { id, at } => push_user(text, *id, *at),
        Place::Number {
            word,
            quantity,
            value,
        } => push_value(text, *word, *quantity, *value),
        Place::Rating { rating } => push_rating(text, *rating),
        Place::SupplyCount { count } => push_count(text, *count),
        Place::FirstSupply { mv } => push_first_supply(text, *mv),
        Place::NextSupply { supply, mv, before } => push_next_supply(text, *supply, *mv, *before),
        Place::Floors {
            floors_mw,
            budget_mw,
        } => push_floors(text, *floors_mw, *budget_mw),
        Place::Room { counted, count } => push_room(text, *counted, *count),
    }
}
