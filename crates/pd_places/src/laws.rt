//! What holds of what is told.

ghost use Rattle.pd_places.specs.First.{ToldWhereItApplies, TheLeastIsFirst, TheAnswerIsFirst};

/// Of a file whose ports are counted, there are places of a refusal exactly where it applies, and they begin with the file and
/// its number: of 2 to 6, 8 and 11 always; of 7, 9 and 10 where none up to 6 applies, since those three leave to these what is absent,
/// empty or 0.
pub fn told_where_it_applies()
    ensures { ToldWhereItApplies }
{}

/// Where a file's tables are refused, by their ports or by the least refusal that applies, the text of all their places begins with
/// the file and the number of that refusal.
pub fn least_is_first()
    ensures { TheLeastIsFirst }
{}

/// What `explain_places` tells of a text begins in either form with the number of the refusal that `port_count` answers of it, or
/// `scenario_from_text` for so many ports as are counted: behind the file, and of a text that is no TOML behind
/// the file and the number of a line. Nothing is said where the answer is want of memory.
pub fn answer_is_first()
    ensures { TheAnswerIsFirst }
{}
