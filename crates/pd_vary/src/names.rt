//! What is asked, by its words.

ghost use Rattle.std.specs.Prelude.{◌≡◌, ◌++◌, IfOk, List, MatchBool, Some, None, map, option_map};
ghost use Rattle.pd_vary.specs.declared.ask.Ask.{Ask as AskData};
ghost use Rattle.pd_vary.specs.Names.{all_asks, ask_among, ask_by, ask_of, ask_with, asks_of, behind, is_of_port, of_port, without_blank};

use crate::read::parts;
use crate::tell::name_of;
use crate::{Ask, What};
use pd_edit_lines::number;
use std::alloc::{AllocError, Global};

const WHATS: [What; 12] = [
    What::Voltage,
    What::Current,
    What::Power,
    What::LeastPower,
    What::GreatestPower,
    What::LessPower,
    What::MorePower,
    What::DiffersUntil,
    What::Margin,
    What::LowestAt,
    What::Faults,
    What::HardResets,
];

fn is_of_port(what: What) -> bool
    ensures { result ≡ is_of_port what }
{
    match what {
        What::Margin | What::LowestAt | What::Faults | What::HardResets => false,
        _ => true,
    }
}

fn of_port(what: What, port: Option<u64>) -> Option<Ask>
    ensures { result ≡ of_port what port }
{
    match port {
        Some(port) if 1 <= port && port <= 8 => Some(Ask {
            what,
            port: port as usize,
        }),
        _ => None,
    }
}

/// What is asked, by what stands behind its name: a blank and a port, or nothing.
fn ask_by(what: What, rest: &[u8]) -> Option<Ask>
    ensures { result ≡ ask_by what (is_of_port what) rest.now }
{
    match (is_of_port(what), rest) {
        (true, [b' ', digits @ ..]) => of_port(what, number(digits)),
        (false, []) => Some(Ask { what, port: 0 }),
        _ => None,
    }
}

/// What stands behind these bytes, where the text begins with them.
fn behind<'a>(name: &[u8], text: &'a [u8]) -> Option<&'a [u8]>
    ensures { option_map (λ x. x.now) result ≡ behind name.now text.now }
{
    if text.starts_with(name) {
        let (_, rest) = text.split_at(name.len());
        Some(rest)
    } else {
        None
    }
}

fn ask_with(text: &[u8], what: What) -> Option<Ask>
    ensures { result ≡ ask_with text.now what }
{
    ask_by(what, behind(name_of(what), text)?)
}

/// The first of these that the words name.
#[tactic(auto, unfolding(crate::specs::Names::ask_among))]
fn ask_among(whats: &[What], text: &[u8]) -> Option<Ask>
    ensures { result ≡ ask_among whats.now text.now }
{
    let [what, more @ ..] = whats else {
        return None;
    };
    match ask_with(text, *what) {
        Some(ask) => Some(ask),
        None => ask_among(more, text),
    }
}

/// What is asked by these words; a blank may stand before them.
fn ask_of(text: &[u8]) -> Option<Ask>
    ensures { result ≡ ask_of text.now }
{
    match text {
        [b' ', rest @ ..] => ask_among(&WHATS, rest),
        _ => ask_among(&WHATS, text),
    }
}

/// What is asked by all of these words, one after the other.
#[tactic(auto, unfolding(crate::specs::Names::all_asks))]
fn push_asks(asks: &mut Vec<Ask>, texts: &[Vec<u8>]) -> Result<bool, AllocError>
    ensures { IfOk result (λ all. MatchBool all
        ((more : List AskData) × (all_asks (map (λ text. text.items) texts.now) ≡ Some more) × (asks.new.items ≡ asks.old.items ++ more))
        (all_asks (map (λ text. text.items) texts.now) ≡ None)) }
{
    let [text, texts @ ..] = texts else {
        return Ok(true);
    };
    let Some(ask) = ask_of(text.as_slice()) else {
        return Ok(false);
    };
    asks.push(ask)?;
    push_asks(asks, texts)
}

/// Reads what is asked: names with commas between them, each with the port that it is of, as `least power 1, less power 2, margin`. None
/// where one of them names nothing.
///
/// # Errors
/// There is no memory.
pub fn read_asks(alloc: Global, text: &[u8]) -> Result<Option<Vec<Ask>>, AllocError>
    ensures { IfOk result (λ asks. option_map (λ v. v.items) asks ≡ asks_of text.now) }
{
    let texts = parts(alloc, text)?;
    let mut asks = Vec::new(alloc);
    if push_asks(&mut asks, texts.as_slice())? {
        Ok(Some(asks))
    } else {
        Ok(None)
    }
}
