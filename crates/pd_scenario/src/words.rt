//! The words and the number by which files and edit scripts write a kind of event, a plug, a mode and a rating.

ghost use Rattle.std.specs.Prelude.{◌≡◌, bytes_eq};
ghost use Rattle.pd_scenario.specs.Words.{kind_of, mode_of, plug_of, rating_of};

use pd_identity::{CablePlug, Rating};
use pd_setup::{EventKind, KindWord, SinkMode};

/// Whether a word is another.
fn is_word(word: &[u8], other: &[u8]) -> bool
    ensures { result ≡ bytes_eq word.now other.now }
{
    word == other
}

/// The kind of event that a word stands for.
pub fn kind_of(word: &[u8]) -> Option<KindWord>
    ensures { result ≡ kind_of word.now }
{
    if is_word(word, b"attach") {
        return Some(EventKind::Attach {
            cable: (),
            sink: (),
        });
    }
    if is_word(word, b"detach") {
        return Some(EventKind::Detach);
    }
    if is_word(word, b"demand") {
        return Some(EventKind::Demand(()));
    }
    if is_word(word, b"lose") {
        return Some(EventKind::Lose);
    }
    if is_word(word, b"damage") {
        return Some(EventKind::Damage(()));
    }
    if is_word(word, b"get_source") {
        return Some(EventKind::GetSource);
    }
    if is_word(word, b"get_sink") {
        return Some(EventKind::GetSink);
    }
    None
}

/// The plug of a cable that a word stands for.
pub fn plug_of(word: &[u8]) -> Option<CablePlug>
    ensures { result ≡ plug_of word.now }
{
    if is_word(word, b"none") {
        return Some(CablePlug::Absent);
    }
    if is_word(word, b"ack") {
        return Some(CablePlug::Ack);
    }
    if is_word(word, b"nak") {
        return Some(CablePlug::Nak);
    }
    if is_word(word, b"busy") {
        return Some(CablePlug::Busy);
    }
    if is_word(word, b"silent") {
        return Some(CablePlug::Silent);
    }
    None
}

/// The mode of a sink that a word stands for.
pub fn mode_of(word: &[u8]) -> Option<SinkMode>
    ensures { result ≡ mode_of word.now }
{
    if is_word(word, b"pd") {
        return Some(SinkMode::PowerDelivery);
    }
    if is_word(word, b"plain") {
        return Some(SinkMode::Plain);
    }
    if is_word(word, b"greedy") {
        return Some(SinkMode::Greedy);
    }
    None
}

/// The rating of a cable for so many mA.
pub fn rating_of(rating: u64) -> Option<Rating>
    ensures { result ≡ rating_of rating }
{
    match rating {
        3_000 => Some(Rating::ThreeAmperes),
        5_000 => Some(Rating::FiveAmperes),
        _ => None,
    }
}
