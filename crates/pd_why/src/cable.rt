//! How the limit of a port's cable is known.

ghost use Rattle.std.specs.Prelude.{◌≡◌};
ghost use Rattle.pd_why.specs.Cables.{by_reply, how_known, learnt, learnt_by, learnt_on, settles, unlearnt};

use pd_identity::{Reply, reply_of};
use pd_port::{Line, What};
use pd_source::State;

/// How the source came to its cable's limit.
#[derive(Clone, Copy, Debug, PartialEq, Eq)]
pub enum CableLimit {
    /// It isn't known yet.
    Unknown,
    /// The port never asks its cable.
    NotAsked,
    /// The plug has acknowledged, and its objects tell it.
    Told,
    /// The plug refused to say.
    Nak,
    /// The plug was busy, also the last time that it was asked.
    Busy,
    /// No answer came in time.
    Silent,
    /// Nobody acknowledged the question.
    NoPlug,
}

/// Of a cable of which the source has learnt nothing yet, and which is asked so often.
fn unlearnt(tries: u8) -> CableLimit
    ensures { result ≡ unlearnt tries }
{
    if tries == 0 {
        CableLimit::NotAsked
    } else {
        CableLimit::Unknown
    }
}

/// Of a cable that is asked so often, and of which the source has learnt this.
pub(crate) fn how_known(tries: u8, learnt: Option<CableLimit>) -> CableLimit
    ensures { result ≡ how_known tries learnt }
{
    match learnt {
        None => unlearnt(tries),
        Some(how) => how,
    }
}

fn by_reply(reply: Reply) -> CableLimit
    ensures { result ≡ by_reply reply }
{
    match reply {
        Reply::Ack => CableLimit::Told,
        Reply::Nak => CableLimit::Nak,
        Reply::Busy => CableLimit::Busy,
    }
}

fn learnt_on(line: &Line) -> CableLimit
    ensures { result ≡ learnt_on line.now }
{
    match line {
        Line::GoodCrc {
            side: _,
            packet,
            answer: _,
            fate: _,
            end: _,
        } => by_reply(reply_of(packet.objects())),
        _ => CableLimit::NoPlug,
    }
}

/// How the source learns its cable's limit, where it does, for what falls due while this is on the line.
pub(crate) fn learnt_by(due: &What, line: &Line) -> CableLimit
    ensures { result ≡ learnt_by due.now line.now }
{
    match due {
        What::Line => learnt_on(line),
        _ => CableLimit::Silent,
    }
}

fn settles(before: State, after: State) -> bool
    ensures { result ≡ settles before after }
{
    matches!(
        (before, after),
        (State::VdmIdentityRequest, State::SendCapabilities)
    )
}

/// How the source learns its cable's limit in a step between these states, if it does.
pub(crate) fn learnt(before: State, after: State, how: CableLimit) -> Option<CableLimit>
    ensures { result ≡ learnt before after how }
{
    if settles(before, after) {
        Some(how)
    } else {
        None
    }
}
