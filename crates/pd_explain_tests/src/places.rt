//! Spoiled files with places of more than one refusal, told from docs/FORMATS.md apart from the program.

use pd_places::explain_places;
use pd_text::Form;
use std::test::Fail;

const MANY: &[u8] = b"version = 2
end = 1000000
budget = 3000
colour = 1
[[port]]
floor = 2500
identity_tries = 0
supplies = [[9000, 3000]]
[[port]]
floor = 2500
supplies = [[5000, 3000]]
[[cable]]
name = \"thin\"
plug = \"none\"
rating = 3000
[[cable]]
name = \"thin\"
plug = \"wide\"
rating = 5000
[[event]]
id = 1
at = 0
port = 1
kind = \"attach\"
cable = \"thick\"
sink = \"phone\"
[[event]]
id = 1
at = -1
kind = \"budget\"
mw = 4999
";

const MANY_SAID: &[u8] =
    b"a.toml:4: refused 2: `colour` is no key of this table; there are version end budget port cable sink event
a.toml:18: refused 5: cable 2: `plug` is `wide`, not one of none, ack, nak, busy, silent
a.toml:29: refused 5: event 2 (id 1, budget): `at` is -1, not 0 to 120000000 us
a.toml:17: refused 7: cable 2: `name` is `thin`, as of cable 1
a.toml:28: refused 7: event 2: `id` is 1, as of event 1
a.toml:8: refused 8: port 1: `supplies` is a list whose supply 1 is [9000, 3000], not 1 to 7 pairs, the first of 5000 mV, \
each voltage above the one before
a.toml:3: refused 9: `budget` is 3000, below 5000 mW, what the floors add to
a.toml:31: refused 9: event 2 (id 1, budget): `mw` is 4999, below 5000 mW, what the floors add to
a.toml:25: refused 10: event 1 (id 1, port 1, attach): `cable` is `thick`, the name of no cable; there are `thin` `thin`
a.toml:26: refused 10: event 1 (id 1, port 1, attach): `sink` is `phone`, the name of no sink; there are none
";

/// Places of each refusal, the least first.
#[test]
fn many_refusals(rt: HostRuntime) -> Result<(), Fail> {
    let said = explain_places(rt.alloc(), Form::Words, b"a.toml", MANY)?;
    assert_eq!(rt; said.as_slice(), MANY_SAID);
    Ok(())
}

/// A port more than there may be: of the other refusals those of the top table are told.
#[test]
fn nine_ports(rt: HostRuntime) -> Result<(), Fail> {
    let text =
        b"colour = 1\n[[port]]\n[[port]]\n[[port]]\n[[port]]\n[[port]]\n[[port]]\n[[port]]\n[[port]]\n[[port]]\n";
    let said = explain_places(rt.alloc(), Form::Words, b"a\nb", text)?;
    assert_eq!(rt;
        said.as_slice(),
        b"a?b: refused 11: there are 9 ports, not 1 to 8
a?b:1: refused 2: `colour` is no key of this table; there are version end budget port cable sink event
a?b: refused 4: `version` is missing
a?b: refused 4: `end` is missing
a?b: refused 4: `budget` is missing
"
            .as_slice()
    );
    Ok(())
}

/// The same as objects: the name of the file, the line, the key, the hint, and what is known of an event.
#[test]
fn objects(rt: HostRuntime) -> Result<(), Fail> {
    let text =
        b"version = 2\nend = 9\nbudget = 500\n[[port]]\nflor = 1\nfloor = 500\nsupplies = [[5000, 3000]]
[[event]]\nid = -7\nat = 1\nkind = \"budget\"\nmw = 500\n";
    let said = explain_places(rt.alloc(), Form::Json, b"a\n\"b", text)?;
    assert_eq!(rt;
        said.as_slice(),
        b"{\"file\":\"a\\u000a\\\"b\",\"line\":5,\"refusal\":2,\"table\":\"port\",\"number\":1,\"key\":\"flor\",\
\"sentence\":\"`flor` is no key of this table; there are floor supplies identity_tries unconstrained\",\
\"hint\":\"did you mean `floor`?\"}
{\"file\":\"a\\u000a\\\"b\",\"line\":9,\"refusal\":5,\"table\":\"event\",\"number\":1,\"id\":-7,\"kind\":\"budget\",\"key\":\"id\",\
\"sentence\":\"`id` is -7, not 1 to 1000000\"}
"
            .as_slice()
    );
    Ok(())
}

/// A text that is no TOML.
#[test]
fn no_toml(rt: HostRuntime) -> Result<(), Fail> {
    let said = explain_places(rt.alloc(), Form::Words, b"a.toml", b"version = 2\nend = \n")?;
    assert!(rt; said.starts_with(b"a.toml:2: refused 1: "));
    Ok(())
}
