//! Spoiled files, each with what is told of it.

use pd_misfits::{File, Lines, explain_error, explain_tables};
use pd_scenario_tables::ScenarioFault;
use pd_text::{Form, Front};
use std::test::Fail;

/// A file, how it is refused, and the lines.
type Spoiled = (&'static [u8], ScenarioFault, &'static [u8]);

const FILES: [Spoiled; 14] = [
    (
        b"version = 2\nend = 5\nbudget = 500\ncolour = 1\n[[port]]\nfloor = 500\nsupplies = []\nname = \"a\"\n",
        ScenarioFault::UnknownKey,
        b"a.toml:4: refused 2: `colour` is no key of this table; there are version end budget port cable sink event
a.toml:8: refused 2: port 1: `name` is no key of this table; there are floor supplies identity_tries unconstrained; \
hint: it is a key of [[cable]] [[sink]]
",
    ),
    (
        b"version = 1\n[[sink]]\nname = \"a\"\nrevision = 2\n",
        ScenarioFault::UnknownKey,
        b"a.toml:4: refused 2: sink 1: `revision` is no key of this table; there are name max demand mode; hint: it needs `version = 2`\n",
    ),
    (
        b"version = 2\nend = \"long\"\nbudget = 1.5\n[port]\nfloor = 1\n[[event]]\nid = true\nkind = 5\n",
        ScenarioFault::WrongType,
        b"a.toml:2: refused 3: `end` is `long`, not a whole number
a.toml:3: refused 3: `budget` is a fraction, not a whole number; hint: 1.5 W is 1500
a.toml:4: refused 3: `port` is a table, not a list of tables, each under its name in double brackets; hint: write `[[port]]`
a.toml:7: refused 3: event 1: `id` is true, not a whole number
a.toml:8: refused 3: event 1: `kind` is 5, not a text
",
    ),
    (
        b"[[port]]\nsupplies = [[5000, 3000], [9000]]\nunconstrained = 0\n[[port]]\nsupplies = [[5000, 3.5, [1]]]\n[[port]]\n\
supplies = [[5000, 3000], [1, 2, 3, 4]]\n[[port]]\nsupplies = [[]]\n",
        ScenarioFault::WrongType,
        b"a.toml:2: refused 3: port 1: `supplies` is a list whose supply 2 is [9000], not a list of pairs of whole numbers
a.toml:3: refused 3: port 1: `unconstrained` is 0, not true or false
a.toml:5: refused 3: port 2: `supplies` is a list whose supply 1 is [5000, a fraction, a list], not a list of pairs of whole numbers
a.toml:7: refused 3: port 3: `supplies` is a list whose supply 2 is a list of 4 values, not a list of pairs of whole numbers
a.toml:9: refused 3: port 4: `supplies` is a list whose supply 1 is [], not a list of pairs of whole numbers
",
    ),
    (
        b"version = 2\nend = 5\n[[port]]\nfloor = 500\n[[event]]\nid = 1\nkind = \"demand\"\n[[event]]\nkind = \"budget\"\n",
        ScenarioFault::MissingKey,
        b"a.toml: refused 4: `budget` is missing
a.toml:3: refused 4: port 1: `supplies` is missing
a.toml:5: refused 4: event 1 (id 1, demand): `mw` is missing
a.toml:5: refused 4: event 1 (id 1, demand): `port` is missing
a.toml:5: refused 4: event 1 (id 1, demand): `at` is missing
a.toml:8: refused 4: event 2 (budget): `mw` is missing
a.toml:8: refused 4: event 2 (budget): `id` is missing
a.toml:8: refused 4: event 2 (budget): `at` is missing
",
    ),
    (
        b"version = 3\nend = -5\nbudget = 499\n[[port]]\nfloor = 100001\nidentity_tries = 21\nsupplies = [[5000, 3000], [9001, 3000]]\n",
        ScenarioFault::Range,
        b"a.toml:1: refused 5: `version` is 3, not 1 or 2
a.toml:2: refused 5: `end` is -5, not 0 to 120000000 us
a.toml:3: refused 5: `budget` is 499, not 500 to 1000000 mW; hint: 499 W is 499000
a.toml:5: refused 5: port 1: `floor` is 100001, not 500 to 100000 mW
a.toml:7: refused 5: port 1: `supplies` is a list whose supply 2 is [9001, 3000], not pairs of a voltage of 5000 to 20000 mV in steps of \
50 and a current of 10 to 5000 mA in steps of 10
a.toml:6: refused 5: port 1: `identity_tries` is 21, not 0 to 20
",
    ),
    (
        b"version = 2\n[[port]]\n[[cable]]\nplug = \"wide\"\nrating = 4000\n[[sink]]\nmax = 5001\ndemand = 49\nmode = \"fast\"\n\
revision = 4\n",
        ScenarioFault::Range,
        b"a.toml:4: refused 5: cable 1: `plug` is `wide`, not one of none, ack, nak, busy, silent
a.toml:5: refused 5: cable 1: `rating` is 4000, not 3000 or 5000 mA
a.toml:7: refused 5: sink 1: `max` is 5001, not 5000 to 20000 mV in steps of 50
a.toml:8: refused 5: sink 1: `demand` is 49, not 50 to 100000 mW; hint: 49 W is 49000
a.toml:9: refused 5: sink 1: `mode` is `fast`, not one of pd, plain, greedy
a.toml:10: refused 5: sink 1: `revision` is 4, not 2 or 3
",
    ),
    (
        b"version = 1\n[[port]]\n[[port]]\n[[event]]\nport = 2\nkind = \"lose\"\n[[event]]\nid = 0\nat = 120000001\nport = 3\n\
kind = \"budget\"\n",
        ScenarioFault::Range,
        b"a.toml:10: refused 5: event 2 (id 0, port 3): `port` is 3, not 1 to 2
a.toml:8: refused 5: event 2 (id 0, port 3): `id` is 0, not 1 to 1000000
a.toml:9: refused 5: event 2 (id 0, port 3): `at` is 120000001, not 0 to 120000000 us
a.toml:11: refused 5: event 2 (id 0, port 3): `kind` is `budget`, not one of attach, detach, demand, lose, damage, get_source, get_sink, \
and under version 2 budget; hint: a change of the budget needs `version = 2`
",
    ),
    (
        b"version = 1\n[[cable]]\nname = \"\"\n[[cable]]\nname = \"thin\"\n[[sink]]\nname = \"a b\\n\"\n[[event]]\n\
kind = \"attach\"\ncable = \"12345678901234567\"\nsink = \"phone\"\n",
        ScenarioFault::Name,
        b"a.toml:3: refused 6: cable 1: `name` is ``, not 1 to 16 letters and digits
a.toml:7: refused 6: sink 1: `name` is `a b?`, not 1 to 16 letters and digits
a.toml:10: refused 6: event 1 (attach): `cable` is `12345678901234567`, not 1 to 16 letters and digits
",
    ),
    (
        b"[[port]]\nsupplies = [[5000, 3000], [5000, 2000]]\n[[port]]\nsupplies = [[5000, 3000], [9000, 2000]]\n[[port]]\n\
supplies = []\n",
        ScenarioFault::Supplies,
        b"a.toml:2: refused 8: port 1: `supplies` is a list whose supply 2 is [5000, 2000], not 1 to 7 pairs, the first of 5000 mV, \
each voltage above the one before
a.toml:6: refused 8: port 3: `supplies` is a list, not 1 to 7 pairs, the first of 5000 mV, each voltage above the one before
",
    ),
    (
        b"version = 2\nend = \"90s\"\nbudget = \"140W\"\n[[cable]]\nrating = \"5A\"\n[[sink]]\nmax = \"20W\"\n\
[[event]]\nid = \"1s\"\nat = 0.5\n",
        ScenarioFault::WrongType,
        b"a.toml:2: refused 3: `end` is `90s`, not a whole number; hint: 90 s is 90000000
a.toml:3: refused 3: `budget` is `140W`, not a whole number; hint: 140 W is 140000
a.toml:5: refused 3: cable 1: `rating` is `5A`, not a whole number; hint: 5 A is 5000
a.toml:7: refused 3: sink 1: `max` is `20W`, not a whole number
a.toml:9: refused 3: event 1: `id` is `1s`, not a whole number
a.toml:10: refused 3: event 1: `at` is a fraction, not a whole number; hint: 0.5 s is 500000
",
    ),
    (
        b"version = 2\nbudget = 140\n[[port]]\nsupplies = [[5, 3]]\n[[port]]\nsupplies = [[5000, 3000], [9, 2000]]\n\
[[port]]\nsupplies = [[-5, 7]]\n[[cable]]\nrating = 5\n",
        ScenarioFault::Range,
        b"a.toml:2: refused 5: `budget` is 140, not 500 to 1000000 mW; hint: 140 W is 140000
a.toml:4: refused 5: port 1: `supplies` is a list whose supply 1 is [5, 3], not pairs of a voltage of 5000 to 20000 mV in steps of \
50 and a current of 10 to 5000 mA in steps of 10; hint: 5 V is 5000, 3 A is 3000
a.toml:6: refused 5: port 2: `supplies` is a list whose supply 2 is [9, 2000], not pairs of a voltage of 5000 to 20000 mV in steps of \
50 and a current of 10 to 5000 mA in steps of 10; hint: 9 V is 9000
a.toml:8: refused 5: port 3: `supplies` is a list whose supply 1 is [-5, 7], not pairs of a voltage of 5000 to 20000 mV in steps of \
50 and a current of 10 to 5000 mA in steps of 10
a.toml:10: refused 5: cable 1: `rating` is 5, not 3000 or 5000 mA; hint: 5 A is 5000
",
    ),
    (b"version = 3\n", ScenarioFault::Floors, b""),
    (b"", ScenarioFault::Range, b""),
];

/// Files with likelier causes, by hand from docs/FORMATS.md, "Hints".
const HINTED: [Spoiled; 3] = [
    (
        b"version = 2\nfloor = 500\n[[port]]\nflor = 500\nend = 5\n[[event]]\nkind = \"lose\"\ncable = \"thin\"\nids = 1\n",
        ScenarioFault::UnknownKey,
        b"a.toml:2: refused 2: `floor` is no key of this table; there are version end budget port cable sink event; \
hint: it is a key of [[port]]
a.toml:5: refused 2: port 1: `end` is no key of this table; there are floor supplies identity_tries unconstrained; \
hint: it is a key of the top
a.toml:4: refused 2: port 1: `flor` is no key of this table; there are floor supplies identity_tries unconstrained; \
hint: did you mean `floor`?
a.toml:8: refused 2: event 1 (lose): `cable` is no key of this table; there are port id at kind; hint: it is a key of [[event]] by its kind
a.toml:9: refused 2: event 1 (lose): `ids` is no key of this table; there are port id at kind; hint: did you mean `id`?
",
    ),
    (
        b"version = 2\n[[event]]\nkind = \"budgte\"\n[[event]]\nkind = \"Lose\"\n[[cable]]\nplug = \"acknak\"\n",
        ScenarioFault::Range,
        b"a.toml:7: refused 5: cable 1: `plug` is `acknak`, not one of none, ack, nak, busy, silent
a.toml:3: refused 5: event 1: `kind` is `budgte`, not one of attach, detach, demand, lose, damage, get_source, get_sink, \
and under version 2 budget; hint: did you mean `budget`?
a.toml:5: refused 5: event 2: `kind` is `Lose`, not one of attach, detach, demand, lose, damage, get_source, get_sink, \
and under version 2 budget; hint: did you mean `lose`?
",
    ),
    (
        b"version = 1\n[cable]\nname = \"thin\"\n",
        ScenarioFault::WrongType,
        b"a.toml:2: refused 3: `cable` is a table, not a list of tables, each under its name in double brackets; \
hint: write `[[cable]]`
",
    ),
];

#[test]
fn hinted_files(rt: HostRuntime) -> Result<(), Fail> {
    for (text, fault, lines) in HINTED.iter() {
        let table = toml::table_from_slice(rt.alloc(), text)?;
        let front = Front::of_file(rt.alloc(), Form::Words, b"a.toml")?;
        let file = File::new(front, Lines::of(rt.alloc(), text)?);
        let said = explain_tables(rt.alloc(), &file, *fault, &table)?;
        assert_eq!(rt; said.as_slice(), *lines);
    }
    Ok(())
}

#[test]
fn spoiled_files(rt: HostRuntime) -> Result<(), Fail> {
    for (text, fault, lines) in FILES.iter() {
        let table = toml::table_from_slice(rt.alloc(), text)?;
        let front = Front::of_file(rt.alloc(), Form::Words, b"a.toml")?;
        let file = File::new(front, Lines::of(rt.alloc(), text)?);
        let said = explain_tables(rt.alloc(), &file, *fault, &table)?;
        assert_eq!(rt; said.as_slice(), *lines);
    }
    Ok(())
}

/// Texts that are no TOML: the line from which on they are none, and the library's words.
#[test]
fn no_toml(rt: HostRuntime) -> Result<(), Fail> {
    let texts: [(&[u8], &[u8]); 3] = [
        (b"version = 2\n\nend = \n", b"a.toml:3: refused 1: "),
        (b"version", b"a.toml:1: refused 1: "),
        (b"version = 2\nname = \"\xFF\"\n", b"a.toml:2: refused 1: "),
    ];
    for (text, front) in texts.iter() {
        let error = match toml::table_from_slice(rt.alloc(), text) {
            Ok(_) => return Err(Fail::from("TOML")),
            Err(error) => error,
        };
        let file = Front::of_file(rt.alloc(), Form::Words, b"a.toml")?;
        let said = explain_error(rt.alloc(), &file, text, &error)?;
        let mut wanted = Vec::new(rt.alloc());
        wanted.extend_from_slice(front)?;
        wanted.extend_from_slice(error.message().as_bytes())?;
        wanted.push(b'\n')?;
        assert_eq!(rt; said.as_slice(), wanted.as_slice());
    }
    Ok(())
}

/// Keys that stand twice: the line in which the same name stands first before it.
#[test]
fn keys_twice(rt: HostRuntime) -> Result<(), Fail> {
    let texts: [(&[u8], &[u8]); 4] = [
        (
            b"version = 2\n[[port]]\n  floor = 1\n# floor = 2\nsupplies = [[5000, 3000]] # floor = 2\n floor=3\n",
            b"a.toml:6: refused 1: duplicate key; hint: `floor` stands in line 3 already\n",
        ),
        (
            b"[[port]]\nfloor = 1\n[ port ]\n",
            b"a.toml:3: refused 1: duplicate key; hint: `port` stands in line 1 already\n",
        ),
        (
            b"end = 1\n[[event]]\nend = 1\nid = 1\n[[event]]\nend = 2\nend\t= 3\n",
            b"a.toml:7: refused 1: duplicate key; hint: `end` stands in line 6 already\n",
        ),
        (
            b"port = [{ floor = 1, floor = 2 }]\n",
            b"a.toml:1: refused 1: duplicate key\n",
        ),
    ];
    for (text, line) in texts.iter() {
        let error = match toml::table_from_slice(rt.alloc(), text) {
            Ok(_) => return Err(Fail::from("TOML")),
            Err(error) => error,
        };
        let file = Front::of_file(rt.alloc(), Form::Words, b"a.toml")?;
        let said = explain_error(rt.alloc(), &file, text, &error)?;
        assert_eq!(rt; said.as_slice(), *line);
    }
    Ok(())
}
