//! Laws of the definitions. They run nothing.

ghost use Rattle.pd_protocol.specs.Laws.{AnsweredIsSent, TwiceIsRepeat, UnansweredFails};

/// The GoodCRC that answers a message's packet ends it, and the next message has the next ID.
pub fn answered_is_sent()
    ensures { AnsweredIsSent }
{}

/// Where no GoodCRC comes, the same packet goes out again until it went out as often as it may, and then it has failed.
pub fn unanswered_fails()
    ensures { UnansweredFails }
{}

/// A message that comes twice in a row goes up once, but for a Soft_Reset.
pub fn twice_is_repeat()
    ensures { TwiceIsRepeat }
{}
