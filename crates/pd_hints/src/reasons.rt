//! Why a scenario or an edit line is refused, and why a session ends early: one sentence for each number.

ghost use Rattle.std.specs.Prelude.{◌≡◌, option_map};
ghost use Rattle.pd_hints.specs.Reasons.{edit_reason, fault_reason, reason_of, scenario_reason};

/// The sentence for the number of a refusal or a fault, or none where no refusal and no fault has the number.
pub fn reason_of(number: u8) -> Option<&'static str>
    ensures { option_map (λ s. s.now) result ≡ reason_of number }
{
    match number {
        1..=12 => scenario_reason(number),
        20..=30 => edit_reason(number),
        _ => fault_reason(number),
    }
}

/// Of a scenario file.
fn scenario_reason(number: u8) -> Option<&'static str>
    ensures { option_map (λ s. s.now) result ≡ scenario_reason number }
{
    match number {
        1 => Some("the text is no TOML"),
        2 => Some("a key is none of its table, or of its kind of event"),
        3 => Some("a value is of another type, or a supply isn't two whole numbers"),
        4 => Some("a table lacks a key that it needs"),
        5 => Some(
            "a number is out of its range, or the version, port, plug, rating, mode or kind is none there is",
        ),
        6 => Some("a name isn't 1 to 16 ASCII letters and digits"),
        7 => Some("two cables or two sinks have one name, or two events one id"),
        8 => Some("supplies are 1 to 7 pairs, the first of 5000 mV, of rising voltages"),
        9 => Some("the floors add to more than the least budget"),
        10 => Some("no cable, or no sink, has the name that an attach gives"),
        11 => Some("there are 1 to 8 ports, and at most 4096 events, 64 cables and 64 sinks"),
        12 => Some("there was no memory for the file"),
        _ => None,
    }
}

/// Of an edit line.
fn edit_reason(number: u8) -> Option<&'static str>
    ensures { option_map (λ s. s.now) result ≡ edit_reason number }
{
    match number {
        20 => Some(
            "a line is insert, remove, move, change, cable, sink, caps, floor, budget, end or show with its words",
        ),
        21 => Some("an event has this id already"),
        22 => Some("no event has this id"),
        23 => Some(
            "no port has this number, or the event is a change of the budget, which is on no port",
        ),
        24 => Some("no cable, or no sink, has this name"),
        25 => Some("an event names this cable or sink"),
        26 => Some("a number is out of its range"),
        27 => Some("supplies begin with 5000 mV, and their voltages rise"),
        28 => Some("the floors would add to more than the least of the budget and its changes"),
        29 => Some("there are 4096 events, 64 cables or 64 sinks already"),
        30 => Some("there was no memory for the edit"),
        _ => None,
    }
}

/// Of a session that ended early.
fn fault_reason(number: u8) -> Option<&'static str>
    ensures { option_map (λ s. s.now) result ≡ fault_reason number }
{
    match number {
        40 => Some("the edits could not be read"),
        41 => Some("the answers could not be written"),
        42 => Some("there was no memory for the words or the first run"),
        43 => Some("the edits have more than 16777216 bytes"),
        _ => None,
    }
}
