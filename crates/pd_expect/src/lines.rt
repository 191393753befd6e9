//! The lines of a test script.

ghost use Rattle.std.specs.Prelude.{◌≡◌, bytes_eq, option_map};
ghost use Rattle.pd_edit_lines.specs.Words.{next, number, number_at, words};
ghost use Rattle.pd_header.specs.Kinds.{name_of};
ghost use Rattle.pd_expect.specs.Lines.{after_word, alone, contract_of, expect_line, expectation_named, expectation_of, fault_of};
ghost use Rattle.pd_expect.specs.Lines.{faults_of, is_comment, is_over, kind_at, kind_named, line_named, lose_line, lost_of};
ghost use Rattle.pd_expect.specs.Lines.{empty_span, first_span, if_empty};
ghost use Rattle.pd_expect.specs.Lines.{all_buts, at_most_of, has_text, is_of_no_fault, most_but, with_buts};
ghost use Rattle.pd_expect.specs.Lines.{margin_in, margin_of, margin_over, no_contract_of, no_fault_of};
ghost use Rattle.pd_expect.specs.Lines.{no_named, no_of, optional_span, packet_of, quantity_at, quoted, side_named, span_at};
ghost use Rattle.pd_expect.specs.Lines.{words_of};
ghost use Rattle.pd_expect.specs.Lines.{at_time, bare_margin, empty_ends, empty_wanted, from_time, no_expectation, optional_power};
ghost use Rattle.pd_expect.specs.Lines.{opens, optional_period, optional_port, optional_text, period_at, period_by, told_in};
ghost use Rattle.pd_expect.specs.Lines.{power_at, test_line, to_time, with_unit_of};

use crate::buts::{behind_buts, behind_of, wrong_text};
use crate::span::{Span, cut};
use pd_edit_lines::{next, number};
use pd_header::{Kind, Side};
use pd_units::{Unit, number_in};

/// The instants from one to another, both of them among these, in microseconds; where there is no last one, to the run's end.
#[derive(Clone, Copy, Debug)]
pub struct Period {
    pub from: u64,
    pub to: Option<u64>,
}

/// What a contract is to be.
#[derive(Clone, Copy, Debug)]
pub enum Wanted {
    /// One of such a voltage, in millivolts, of such a current, in milliamperes, and of so much power at the least, in microwatts.
    Such {
        voltage: Span,
        current: Span,
        least: u64,
    },
    /// None.
    Nothing,
}

/// What is expected of a run.
#[derive(Clone, Copy, Debug)]
pub enum Expectation {
    /// At the end of each of these instants the contract of the port is as wanted.
    Contract {
        port: u64,
        period: Period,
        wanted: Wanted,
    },
    /// At the end of each instant the contracts leave so many microwatts of the budget, at the least.
    Margin {
        least: u64,
    },
    /// They do so at the end of each of these instants.
    MarginOver {
        period: Period,
        least: u64,
    },
    /// Nothing goes wrong.
    NoFaults,
    /// On the port, or on any, nothing goes wrong at any of these instants; or, where it is told so, not what the line has in
    /// quotation marks.
    NoFault {
        port: Option<u64>,
        told: bool,
        period: Period,
    },
    /// On the port go wrong so many things at the most; those that the line excepts, if it does, aren't counted.
    FaultsAtMost {
        port: u64,
        most: u64,
        but: bool,
    },
    /// What the line has in quotation marks goes wrong on the port.
    Fault {
        port: u64,
    },
    /// Such a packet starts on the port at one of these times, in microseconds.
    Packet {
        port: u64,
        side: Side,
        kind: Kind,
        from: u64,
        to: u64,
    },
}

/// Which packet is to be lost: which one of this kind on the port, numbered from 1.
#[derive(Clone, Copy, Debug)]
pub struct Lost {
    pub nth: u64,
    pub kind: Kind,
    pub port: u64,
}

/// What a line of a test script is.
#[derive(Clone, Copy, Debug)]
pub enum TestLine {
    /// A line of an edit script, or none.
    Edit,
    Expect(Expectation),
    Lose(Lost),
    /// It would be an expectation, but for a range that ends before it begins.
    EmptyRange(Span),
    /// It would be an expectation of a margin, but for the unit that this number lacks.
    BareMargin(u64),
    /// It would be an expectation of a fault, but no fault is told in its words.
    NoFaultText,
    /// It begins as one of the others, and is none.
    NoTest,
}

/// The kinds of messages that have names.
pub(crate) const KINDS: [Kind; 13] = [
    Kind::GoodCrc,
    Kind::Accept,
    Kind::Reject,
    Kind::PsRdy,
    Kind::GetSourceCap,
    Kind::GetSinkCap,
    Kind::Wait,
    Kind::SoftReset,
    Kind::NotSupported,
    Kind::SourceCapabilities,
    Kind::Request,
    Kind::SinkCapabilities,
    Kind::VendorDefined,
];

/// Whether a line is over, or what is left of it is a comment.
fn is_over(line: &[u8]) -> bool
    ensures { result ≡ is_over (words line.now) }
{
    match next(line) {
        None => true,
        Some((word, _)) => is_comment(word),
    }
}

pub(crate) fn is_comment(word: &[u8]) -> bool
    ensures { result ≡ is_comment word.now }
{
    match word {
        [] => false,
        [byte, ..] => *byte == b'#',
    }
}

/// What stands behind a word.
pub(crate) fn after_word<'a>(word: &[u8], line: &'a [u8]) -> Option<&'a [u8]>
    ensures { option_map (λ x. words x.now) result ≡ after_word word.now (words line.now) }
{
    let (first, rest) = next(line)?;
    if first == word { Some(rest) } else { None }
}

/// The first word as a number, and what stands behind it.
pub(crate) fn number_at(line: &[u8]) -> Option<(u64, &[u8])>
    ensures { option_map (λ x. (x.0, words x.1.now)) result ≡ number_at (words line.now) }
{
    let (word, rest) = next(line)?;
    Some((number(word)?, rest))
}

/// The first word as a number of a unit, and what stands behind it.
fn quantity_at(unit: Unit, line: &[u8]) -> Option<(u64, &[u8])>
    ensures { option_map (λ x. (x.0, words x.1.now)) result ≡ quantity_at unit (words line.now) }
{
    let (word, rest) = next(line)?;
    Some((number_in(unit, word)?, rest))
}

/// The first word as a range of numbers of a unit, and what stands behind it.
fn span_at(unit: Unit, line: &[u8]) -> Option<(Span, &[u8])>
    ensures { option_map (λ x. (x.0, words x.1.now)) result ≡ span_at unit (words line.now) }
{
    let (word, rest) = next(line)?;
    Some((Span::read(unit, word)?, rest))
}

/// The range behind a word, or any number where the word isn't there; and what stands behind it.
fn optional_span<'a>(word: &[u8], unit: Unit, line: &'a [u8]) -> Option<(Span, &'a [u8])>
    ensures { option_map (λ x. (x.0, words x.1.now)) result ≡ optional_span word.now unit (words line.now) }
{
    match next(line) {
        Some((first, rest)) if first == word => span_at(unit, rest),
        _ => Some((Span::ANY, line)),
    }
}

/// The side of a name.
pub(crate) fn side_named(word: &[u8]) -> Option<Side>
    ensures { result ≡ side_named word.now }
{
    if word == b"src".as_slice() {
        return Some(Side::Source);
    }
    if word == b"snk".as_slice() {
        return Some(Side::Sink);
    }
    if word == b"cbl".as_slice() {
        return Some(Side::Plug);
    }
    None
}

/// Whether a kind of message has a name.
fn has_name(kind: Kind, name: &[u8]) -> bool
    ensures { result ≡ bytes_eq (name_of kind) name.now }
{
    kind.name().as_str().as_bytes() == name
}

/// The kind of message of a name.
pub(crate) fn kind_named(word: &[u8]) -> Option<Kind>
    ensures { result ≡ kind_named word.now }
{
    KINDS.iter().copied().find(|kind| has_name(*kind, word))
}

/// The first word as the name of a kind of message, and what stands behind it.
fn kind_at(line: &[u8]) -> Option<(Kind, &[u8])>
    ensures { option_map (λ x. (x.0, words x.1.now)) result ≡ kind_at (words line.now) }
{
    let (word, rest) = next(line)?;
    Some((kind_named(word)?, rest))
}

/// `TIME`: one instant.
fn at_time(line: &[u8]) -> Option<(Period, &[u8])>
    ensures { option_map (λ x. (x.0, words x.1.now)) result ≡ at_time (words line.now) }
{
    let (at, rest) = quantity_at(Unit::Microseconds, line)?;
    let period = Period {
        from: at,
        to: Some(at),
    };
    Some((period, rest))
}

/// `TIME`: the last of the instants from one on.
fn to_time(from: u64, line: &[u8]) -> Option<(Period, &[u8])>
    ensures { option_map (λ x. (x.0, words x.1.now)) result ≡ to_time from (words line.now) }
{
    let (to, rest) = quantity_at(Unit::Microseconds, line)?;
    let period = Period { from, to: Some(to) };
    Some((period, rest))
}

/// `TIME [to TIME]`.
fn from_time(line: &[u8]) -> Option<(Period, &[u8])>
    ensures { option_map (λ x. (x.0, words x.1.now)) result ≡ from_time (words line.now) }
{
    let (from, rest) = quantity_at(Unit::Microseconds, line)?;
    match after_word(b"to", rest) {
        None => Some((Period { from, to: None }, rest)),
        Some(behind) => to_time(from, behind),
    }
}

/// The instants by the word that stands before a time.
fn period_by<'a>(word: &[u8], line: &'a [u8]) -> Option<(Period, &'a [u8])>
    ensures { option_map (λ x. (x.0, words x.1.now)) result ≡ period_by word.now (words line.now) }
{
    if word == b"at".as_slice() {
        return at_time(line);
    }
    if word == b"from".as_slice() {
        return from_time(line);
    }
    if word == b"to".as_slice() {
        return to_time(0, line);
    }
    None
}

/// `at TIME`, `from TIME to TIME`, or one of these ends alone.
fn period_at(line: &[u8]) -> Option<(Period, &[u8])>
    ensures { option_map (λ x. (x.0, words x.1.now)) result ≡ period_at (words line.now) }
{
    let (word, rest) = next(line)?;
    period_by(word, rest)
}

/// A power in microwatts, which has its unit.
pub(crate) fn with_unit_of(word: &[u8]) -> Option<u64>
    ensures { result ≡ with_unit_of word.now (number word.now) }
{
    match number(word) {
        None => number_in(Unit::Microwatts, word),
        Some(_) => None,
    }
}

/// The first word as a power with its unit, and what stands behind it.
fn power_at(line: &[u8]) -> Option<(u64, &[u8])>
    ensures { option_map (λ x. (x.0, words x.1.now)) result ≡ power_at (words line.now) }
{
    let (word, rest) = next(line)?;
    Some((with_unit_of(word)?, rest))
}

/// `[power at_least POWER]`, and what stands behind it.
fn optional_power(line: &[u8]) -> Option<(u64, &[u8])>
    ensures { option_map (λ x. (x.0, words x.1.now)) result ≡ optional_power (words line.now) }
{
    match next(line) {
        Some((first, rest)) if first == b"power".as_slice() => {
            power_at(after_word(b"at_least", rest)?)
        }
        _ => Some((0, line)),
    }
}

/// `PORT TIME [voltage RANGE] [current RANGE] [power at_least POWER]`.
fn contract_of(line: &[u8]) -> Option<Expectation>
    ensures { result ≡ contract_of (words line.now) }
{
    let (port, rest) = number_at(line)?;
    let (period, rest) = period_at(rest)?;
    let (voltage, rest) = optional_span(b"voltage", Unit::Millivolts, rest)?;
    let (current, rest) = optional_span(b"current", Unit::Milliamperes, rest)?;
    let (least, rest) = optional_power(rest)?;
    let wanted = Wanted::Such {
        voltage,
        current,
        least,
    };
    let expectation = Expectation::Contract {
        port,
        period,
        wanted,
    };
    if is_over(rest) {
        Some(expectation)
    } else {
        None
    }
}

/// `PORT TIME`.
fn no_contract_of(line: &[u8]) -> Option<Expectation>
    ensures { result ≡ no_contract_of (words line.now) }
{
    let (port, rest) = number_at(line)?;
    let (period, rest) = period_at(rest)?;
    let expectation = Expectation::Contract {
        port,
        period,
        wanted: Wanted::Nothing,
    };
    if is_over(rest) {
        Some(expectation)
    } else {
        None
    }
}

/// The instants over which a margin is expected.
fn margin_over(least: u64, line: &[u8]) -> Option<Expectation>
    ensures { result ≡ margin_over least (words line.now) }
{
    let (period, rest) = period_at(line)?;
    if is_over(rest) {
        Some(Expectation::MarginOver { period, least })
    } else {
        None
    }
}

/// The same, or nothing where it is expected of the whole run.
fn margin_in(least: u64, line: &[u8]) -> Option<Expectation>
    ensures { result ≡ margin_in least (words line.now) }
{
    if is_over(line) {
        Some(Expectation::Margin { least })
    } else {
        margin_over(least, line)
    }
}

/// `at_least POWER [TIME]`.
fn margin_of(line: &[u8]) -> Option<Expectation>
    ensures { result ≡ margin_of (words line.now) }
{
    let rest = after_word(b"at_least", line)?;
    let (least, rest) = power_at(rest)?;
    margin_in(least, rest)
}

/// `margin at_least NUMBER [TIME]`: the number, whose unit is left out.
fn bare_margin(line: &[u8]) -> Option<u64>
    ensures { result ≡ bare_margin (words line.now) }
{
    let rest = after_word(b"margin", line)?;
    let rest = after_word(b"at_least", rest)?;
    let (bare, rest) = number_at(rest)?;
    let _ = margin_in(bare, rest)?;
    Some(bare)
}

/// The line is over behind all words that are excepted.
fn all_buts(port: u64, most: u64, rest: &[u8]) -> Option<Expectation>
    ensures { result ≡ all_buts port most rest.now }
{
    if is_over(behind_buts(rest, rest)) {
        let but = true;
        Some(Expectation::FaultsAtMost { port, most, but })
    } else {
        None
    }
}

/// `but "WORDS"`, once or more often.
fn with_buts(line: &[u8], port: u64, most: u64, rest: &[u8]) -> Option<Expectation>
    ensures { result ≡ with_buts line.now port most (words rest.now) }
{
    let named = after_word(b"but", rest)?;
    match next(named) {
        Some((word, _)) if opens(word) => all_buts(port, most, behind_of(line)),
        _ => None,
    }
}

/// `[but "WORDS"]..`.
fn most_but(line: &[u8], port: u64, most: u64, rest: &[u8]) -> Option<Expectation>
    ensures { result ≡ most_but line.now port most (words rest.now) }
{
    if is_over(rest) {
        let but = false;
        return Some(Expectation::FaultsAtMost { port, most, but });
    }
    with_buts(line, port, most, rest)
}

/// `PORT at_most NUMBER [but "WORDS"]..`.
fn at_most_of(line: &[u8], rest: &[u8]) -> Option<Expectation>
    ensures { result ≡ at_most_of line.now (words rest.now) }
{
    let (port, rest) = number_at(rest)?;
    let rest = after_word(b"at_most", rest)?;
    let (most, rest) = number_at(rest)?;
    most_but(line, port, most, rest)
}

/// `none`, or a port and how many.
fn faults_of(line: &[u8], rest: &[u8]) -> Option<Expectation>
    ensures { result ≡ faults_of line.now (words rest.now) }
{
    match next(rest) {
        None => None,
        Some((word, more)) if word == b"none".as_slice() => {
            if is_over(more) {
                Some(Expectation::NoFaults)
            } else {
                None
            }
        }
        Some(_) => at_most_of(line, rest),
    }
}

/// What stands in the first quotation marks of a line, and what stands behind them.
pub fn quoted(line: &[u8]) -> Option<(&[u8], &[u8])>
    ensures { option_map (λ x. (x.0.now, x.1.now)) result ≡ quoted line.now }
{
    let (_, opened) = cut(b'"', line)?;
    cut(b'"', opened)
}

/// `PORT "WORDS"`.
fn fault_of(line: &[u8], rest: &[u8]) -> Option<Expectation>
    ensures { result ≡ fault_of line.now (words rest.now) }
{
    let (port, _) = number_at(rest)?;
    let (_, rest) = quoted(line)?;
    if is_over(rest) {
        Some(Expectation::Fault { port })
    } else {
        None
    }
}

/// A port, where there is one, and what stands behind it.
fn optional_port(line: &[u8]) -> (Option<u64>, &[u8])
    ensures { (result.0, words result.1.now) ≡ optional_port (words line.now) }
{
    match number_at(line) {
        None => (None, line),
        Some((port, rest)) => (Some(port), rest),
    }
}

pub(crate) fn opens(word: &[u8]) -> bool
    ensures { result ≡ opens word.now }
{
    match word {
        [] => false,
        [byte, ..] => *byte == b'"',
    }
}

/// Whether a line has words in quotation marks here, and what stands behind them.
fn optional_text<'a>(line: &'a [u8], rest: &'a [u8]) -> Option<(bool, &'a [u8])>
    ensures { option_map (λ x. (x.0, words x.1.now)) result ≡ optional_text line.now (words rest.now) }
{
    match next(rest) {
        Some((word, _)) if opens(word) => {
            let (_, behind) = quoted(line)?;
            Some((true, behind))
        }
        _ => Some((false, rest)),
    }
}

/// Some instants, or all of the run.
fn optional_period(line: &[u8]) -> Option<(Period, &[u8])>
    ensures { option_map (λ x. (x.0, words x.1.now)) result ≡ optional_period (words line.now) }
{
    if is_over(line) {
        let period = Period { from: 0, to: None };
        return Some((period, line));
    }
    period_at(line)
}

/// What isn't to go wrong on a port.
fn told_in(port: Option<u64>, told: bool, line: &[u8]) -> Option<Expectation>
    ensures { result ≡ told_in port (told, words line.now) }
{
    let (period, rest) = optional_period(line)?;
    if is_over(rest) {
        Some(Expectation::NoFault { port, told, period })
    } else {
        None
    }
}

/// `[PORT] ["WORDS"] [TIME]`.
fn no_fault_of(line: &[u8], rest: &[u8]) -> Option<Expectation>
    ensures { result ≡ no_fault_of line.now (words rest.now) }
{
    let (port, rest) = optional_port(rest);
    let (told, rest) = optional_text(line, rest)?;
    told_in(port, told, rest)
}

/// What isn't to be, by the word behind `no` and what stands behind that.
fn no_named(line: &[u8], word: &[u8], rest: &[u8]) -> Option<Expectation>
    ensures { result ≡ no_named line.now word.now (words rest.now) }
{
    if word == b"contract".as_slice() {
        return no_contract_of(rest);
    }
    if word == b"fault".as_slice() {
        return no_fault_of(line, rest);
    }
    None
}

/// What isn't to be, by what stands behind `no`.
fn no_of(line: &[u8], rest: &[u8]) -> Option<Expectation>
    ensures { result ≡ no_of line.now (words rest.now) }
{
    let (word, rest) = next(rest)?;
    no_named(line, word, rest)
}

/// What stands in the quotation marks of a line, and nothing where it has none.
pub(crate) fn words_of(line: &[u8]) -> &[u8]
    ensures { result.now ≡ words_of (quoted line.now) }
{
    match quoted(line) {
        Some((words, _)) => words,
        None => b"",
    }
}

/// Whether what the line has in quotation marks is expected.
fn has_text(expectation: &Expectation) -> bool
    ensures { result ≡ has_text expectation.now }
{
    match *expectation {
        Expectation::Fault { .. } => true,
        Expectation::NoFault { told, .. } => told,
        Expectation::FaultsAtMost { but, .. } => but,
        _ => false,
    }
}

/// Whether no fault is told in the words that are expected.
fn is_of_no_fault(line: &[u8], expectation: &Expectation) -> bool
    ensures { result ≡ is_of_no_fault line.now expectation.now }
{
    has_text(expectation) && wrong_text(line).is_some()
}

/// `PORT SIDE NAME between FROM TO`.
fn packet_of(line: &[u8]) -> Option<Expectation>
    ensures { result ≡ packet_of (words line.now) }
{
    let (port, rest) = number_at(line)?;
    let (word, rest) = next(rest)?;
    let side = side_named(word)?;
    let (kind, rest) = kind_at(rest)?;
    let rest = after_word(b"between", rest)?;
    let (from, rest) = quantity_at(Unit::Microseconds, rest)?;
    let (to, rest) = quantity_at(Unit::Microseconds, rest)?;
    let expectation = Expectation::Packet {
        port,
        side,
        kind,
        from,
        to,
    };
    if is_over(rest) {
        Some(expectation)
    } else {
        None
    }
}

/// What is expected, by the word behind `expect` and what stands behind that.
fn expectation_named(line: &[u8], word: &[u8], rest: &[u8]) -> Option<Expectation>
    ensures { result ≡ expectation_named line.now word.now (words rest.now) }
{
    if word == b"contract".as_slice() {
        return contract_of(rest);
    }
    if word == b"no".as_slice() {
        return no_of(line, rest);
    }
    if word == b"margin".as_slice() {
        return margin_of(rest);
    }
    if word == b"faults".as_slice() {
        return faults_of(line, rest);
    }
    if word == b"fault".as_slice() {
        return fault_of(line, rest);
    }
    if word == b"packet".as_slice() {
        return packet_of(rest);
    }
    None
}

/// What is expected, by what stands behind `expect`.
fn expectation_of(line: &[u8], rest: &[u8]) -> Option<Expectation>
    ensures { result ≡ expectation_of line.now (words rest.now) }
{
    let (word, rest) = next(rest)?;
    expectation_named(line, word, rest)
}

/// `NTH NAME of port PORT`.
fn lost_of(line: &[u8]) -> Option<Lost>
    ensures { result ≡ lost_of (words line.now) }
{
    let (nth, rest) = number_at(line)?;
    let (kind, rest) = kind_at(rest)?;
    let rest = after_word(b"of", rest)?;
    let rest = after_word(b"port", rest)?;
    let (port, rest) = number_at(rest)?;
    if is_over(rest) {
        Some(Lost { nth, kind, port })
    } else {
        None
    }
}

/// A range that ends before it begins.
fn if_empty(span: Span) -> Option<Span>
    ensures { result ≡ if_empty span }
{
    if span.to < span.from {
        Some(span)
    } else {
        None
    }
}

fn first_span(first: Option<Span>, other: Option<Span>) -> Option<Span>
    ensures { result ≡ first_span first other }
{
    match first {
        None => other,
        Some(span) => Some(span),
    }
}

/// Instants that end before they begin.
fn empty_ends(from: u64, to: Option<u64>) -> Option<Span>
    ensures { result ≡ empty_ends from to }
{
    match to {
        None => None,
        Some(to) => if_empty(Span { from, to }),
    }
}

/// The first range of what a contract is to be in which no number is.
fn empty_wanted(wanted: Wanted) -> Option<Span>
    ensures { result ≡ empty_wanted wanted }
{
    match wanted {
        Wanted::Such {
            voltage,
            current,
            ..
        } => first_span(if_empty(voltage), if_empty(current)),
        Wanted::Nothing => None,
    }
}

/// The first range of an expectation in which no number is.
fn empty_span(expectation: &Expectation) -> Option<Span>
    ensures { result ≡ empty_span expectation.now }
{
    match *expectation {
        Expectation::Contract { period, wanted, .. } => first_span(
            empty_ends(period.from, period.to),
            empty_wanted(wanted),
        ),
        Expectation::MarginOver { period, .. } | Expectation::NoFault { period, .. } => {
            empty_ends(period.from, period.to)
        }
        Expectation::Packet { from, to, .. } => if_empty(Span { from, to }),
        _ => None,
    }
}

/// What a line is that has no expectation, by the number of a margin without its unit.
fn no_expectation(bare: Option<u64>) -> TestLine
    ensures { result ≡ no_expectation bare }
{
    match bare {
        None => TestLine::NoTest,
        Some(bare) => TestLine::BareMargin(bare),
    }
}

/// What a line is by what is expected, if anything is.
fn expect_line(line: &[u8], expectation: Option<Expectation>, bare: Option<u64>) -> TestLine
    ensures { result ≡ expect_line line.now expectation bare }
{
    let Some(expectation) = expectation else {
        return no_expectation(bare);
    };
    if is_of_no_fault(line, &expectation) {
        return TestLine::NoFaultText;
    }
    match empty_span(&expectation) {
        None => TestLine::Expect(expectation),
        Some(span) => TestLine::EmptyRange(span),
    }
}

impl TestLine {
    /// What a line of a test script is.
    #[tactic(auto, unfolding(crate::specs::Lines::test_line))]
    pub fn read(line: &[u8]) -> TestLine
        ensures { result ≡ test_line line.now }
    {
        let Some((word, rest)) = next(line) else {
            return TestLine::Edit;
        };
        if word == b"expect".as_slice() {
            return expect_line(line, expectation_of(line, rest), bare_margin(rest));
        }
        if word == b"lose".as_slice() {
            return match lost_of(rest) {
                None => TestLine::NoTest,
                Some(lost) => TestLine::Lose(lost),
            };
        }
        TestLine::Edit
    }
}
