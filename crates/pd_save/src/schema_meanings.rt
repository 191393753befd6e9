//! What the schema says of each key, each list and each kind of event to a person.

ghost use Rattle.std.specs.Prelude.{◌≡◌};
ghost use Rattle.pd_save.specs.SchemaMeanings.{list_meaning, key_meaning, meaning, event_meaning};

use pd_scenario_tables::{EventName, Form, Key};
use pd_setup::EventKind;

fn list_meaning(key: Key) -> &'static str
    ensures { result.now ≡ list_meaning key }
{
    match key {
        Key::Port => "The ports of the charger, numbered from 1 in the order of the file.",
        Key::Cable => "The cables that may be attached.",
        Key::Sink => "The sinks that may be attached.",
        _ => "What happens, and when.",
    }
}

fn key_meaning(key: Key) -> &'static str
    ensures { result.now ≡ key_meaning key }
{
    match key {
        Key::Version =>
            "The format of the file. 2 also has timed budgets and sinks of revision 2.0.",
        Key::End => "When the run ends, in microseconds.",
        Key::Budget => "The power that the ports share, in mW.",
        Key::Port => "The port on which it happens, from 1 in the order of the file.",
        Key::Cable => "The name of the cable through which the sink is attached.",
        Key::Sink => "The name of the sink that is attached.",
        Key::Event => "What happens, and when.",
        Key::Floor =>
            "The power that the port always holds, in mW. All floors add to at most the least budget.",
        Key::Supplies => {
            "What the port offers: pairs of a voltage in mV and a current in mA. The first has 5,000 mV, and voltages rise."
        }
        Key::IdentityTries =>
            "How often the cable is asked who it is. If never, it carries 3,000 mA.",
        Key::Unconstrained => "Whether the offer of the port says that its power is unconstrained.",
        Key::Name => {
            "The name by which events attach it: 1 to 16 ASCII letters and digits. No two cables have one name, and no two sinks."
        }
        Key::Plug =>
            "What its plug answers when asked who it is; none is a cable without an e-marker.",
        Key::Rating => "The current in mA that the cable is built for.",
        Key::Max => "The greatest voltage that the sink accepts, in mV.",
        Key::Demand => "The power that the sink wants, in mW.",
        Key::Mode => {
            "How the sink behaves: pd; plain, without USB Power Delivery; greedy, which asks for what it needs whatever it is offered."
        }
        Key::Revision => "The revision of USB Power Delivery that the sink speaks: 2.0 or 3.0.",
        Key::Id => "The number of the event. No two events have one number.",
        Key::At => "When it happens, in microseconds.",
        Key::Kind => "What happens. The other keys of the event are those of its kind.",
        Key::Mw => "The power in mW that the sink wants from now on, or that the ports share.",
        Key::Place => "Which code of the packet is changed, from 0 behind the ordered set.",
        Key::Mask => "Which bits of that code are turned, as a number.",
    }
}

/// What a key is, where its value is of a form.
pub(crate) fn meaning(key: Key, form: Form) -> &'static str
    ensures { result.now ≡ meaning key form }
{
    match form {
        Form::Tables => list_meaning(key),
        _ => key_meaning(key),
    }
}

/// What happens by an event of a name.
pub(crate) fn event_meaning(name: EventName) -> &'static str
    ensures { result.now ≡ event_meaning name }
{
    match name {
        EventName::OnPort(EventKind::Attach { .. }) => "The sink is attached through the cable.",
        EventName::OnPort(EventKind::Detach) => "The cable is pulled out.",
        EventName::OnPort(EventKind::Demand(())) => "The sink wants another power from now on.",
        EventName::OnPort(EventKind::Lose) => "The next packet that starts is lost.",
        EventName::OnPort(EventKind::Damage(())) => {
            "The next packet that starts is damaged: the mask changes one of its codes."
        }
        EventName::OnPort(EventKind::GetSource) => {
            "The sink asks for the capabilities of the source."
        }
        EventName::OnPort(EventKind::GetSink) =>
            "The source asks for the capabilities of the sink.",
        EventName::Budget => "The budget that the ports share is another from now on.",
        EventName::Unknown => "Nothing.",
    }
}
