//! The commands of `pdlab`: by this table the command line is read, and help is told.

ghost use Rattle.std.specs.Prelude.{◌≡◌, map};
ghost use Rattle.pd_words.specs.Help.{shape};
ghost use Rattle.pd_words.specs.Lab.{lab, live, show, why, guarantee, sweep, vary, test, draw, page, explain, decode, new, schema};

use crate::page::{Choice, Page, Word};
use Choice::{Any, Flag, Letter, Switch, Value, Values};
use Word::{May, Must, Several};

const SCENARIO: Word = Must("SCENARIO");

const EDITS: Word = May("EDITS");

const FROM: Choice = Value(
    "from",
    "T",
    &["from this time on: 3s, 54.9ms, or microseconds"],
);

const TO: Choice = Value("to", "T", &["up to this time"]);

const OUT: Choice = Letter(
    'o',
    "FILE",
    &["writes the file FILE in place of standard output"],
);

const KEEP_GOING: Choice = Flag(
    "keep-going",
    &[
        "passes over refused lines of EDITS: they change nothing, and the status",
        "is 1 all the same",
    ],
);

const LIVE: Page = Page {
    name: "live",
    usage: "live SCENARIO",
    summary: &["a session at the keyboard"],
    title: "a session at the keyboard",
    words: &[SCENARIO],
    about: "Runs the charger of the file SCENARIO, reads edits and shows from standard input,
a line at a time, and answers each on standard output before it reads the next;
after refused N, says on standard error where the line breaks the rule and what
would be right there; in a terminal asks for each line by a prompt, and says at the end
where the last edits were not saved.

A line with a colon first is the desk's own. It is not counted, and where it can
do nothing, standard error says why:
  :list              the scenario as edit lines
  :undo [N]          takes back the last edit that was made, or the last N, again and
                     again
  :redo              makes the edit again that was taken back last
  :diff [all]        lines of contracts, faults and margins that this edit, or all
                     edits, took away (-) and brought (+)
  :why PORT [AT]     what bounds a port: its last offer, or each one up to AT
  :show [PORT]       the run, as show tells it: of a port, or of all
  :warn              what the scenario is warned of, as explain warns
  :guarantee         what is sure for each port, whatever is plugged in
  :sweep [PORT] [FROM [TO]] [all]
                     what losing each packet leads to, as sweep tells it: each that makes
                     a difference, or all
  :vary SET [; SET ..] [tell NAMES]
                     the run with values of edit lines, as vary tells it
  :test FILE         the lines of a test script that fail, and how many passed
  :save FILE         writes the scenario to a new file, which reads back as the same
  :save-edits FILE   writes the edits that led to it to a new file, a script
  :load FILE         makes the edits of a script, or none where a line is refused
  :draw FILE         writes the run to a new file as a picture, as draw does
  :save! FILE        as :save, in the place of a file that is there; so are
                     :save-edits! and :draw!
  :quit              ends the session, as Ctrl-D does
  :help              tells of these lines

Lines, files and numbers are those of pdbench: times in microseconds, voltages in
mV, currents in mA, powers in mW. The last line tells how many edits were made,
lines were refused and shows were written.

",
    column: 17,
    options: &[],
    end: "example: pdlab live examples/derating.toml
  show contracts
  budget 40000
  :diff
  :undo

status: 0 the lines were answered to their end, 1 the scenario is refused,
        2 the words are others, 3 a file can't be read, or a fault
",
};

const SHOW: Page = Page {
    name: "show",
    usage: "show SCENARIO [EDITS] [OPTIONS]",
    summary: &["a run as an engineer reads it, all ports in one list"],
    title: "a run as an engineer reads it",
    words: &[SCENARIO, EDITS],
    about: "Shows the run of the charger of the file SCENARIO, as the edit script EDITS leaves
it (one of them may be -, standard input). A line is shown for each thing that is told,
in the order of time: events, faults, what is asked of the shared budget and answered,
contracts, holds, packets with their content, and the states of source and sink. Each
line begins with its time and the time since the line before, in microseconds. Where a
line of EDITS is refused, nothing is shown but why, on standard error.

",
    column: 17,
    options: &[
        Value(
            "port",
            "P",
            &["of this port alone; ports are numbered from 1"],
        ),
        FROM,
        TO,
        Flag("no-goodcrc", &["without the GoodCRC messages"]),
        Flag("codes", &["packets with the codes on the line"]),
        Flag(
            "json",
            &[
                "a JSON object for each line, with units in its keys (_us, _mv,",
                "_ma, _mw, _uw)",
            ],
        ),
        Flag(
            "csv",
            &[
                "comma-separated values for each line, behind a line with their",
                "names: at_us,since_us,port,kind,text",
            ],
        ),
        OUT,
        KEEP_GOING,
    ],
    end: "
example: pdlab show --no-goodcrc --port 1 examples/charger_65w.toml
  pdlab show --json examples/charger_65w.toml | grep contract

status: 0 the run was shown, 1 the scenario or a line of EDITS is refused, there is no
        such port, or nothing in that part of the run,
        2 the words are others, 3 a file can't be read, or a fault
",
};

const WHY: Page = Page {
    name: "why",
    usage: "why [OPTIONS] SCENARIO [EDITS] PORT [AT]",
    summary: &["what bounds a port's offers, and what came of them"],
    title: "what bounds a port",
    words: &[SCENARIO, Must("PORT"), May("SECOND"), May("THIRD")],
    about: "Runs the charger of the file SCENARIO, as the edit script EDITS leaves it (one of
them may be -, standard input), and tells of the last offer of port PORT:
the budget, what each other port holds of it and why, and what is free; what the
cable carries and how that is known; of each supply what is configured, what the
cable and what is free allow, and which of them set the current that is offered,
all that are the least; what the sink asks for and why; and what comes of it. Where
a line of EDITS is refused, nothing is told but why, on standard error. Of two words
behind SCENARIO the first is PORT where it is a number, and else EDITS.

  PORT           the port; ports are numbered from 1
  AT             tells of each offer up to this time, as 61s, or in microseconds, in
                 place of the last
",
    column: 17,
    options: &[
        Flag(
            "json",
            &[
                "a JSON object for each line, with units in its keys (_us, _mv, _ma,",
                "_mw, _uw), for other programs",
            ],
        ),
        KEEP_GOING,
    ],
    end: "
Voltages are in volts, currents in amperes, in the steps of 10 mA in which offers
state them, powers in watts.

example: pdlab why examples/derating.toml 2

status: 0 it was told, 1 the scenario or a line of EDITS is refused, or there is no
        such port, 2 the words are others, 3 a file can't be read, or a fault
",
};

const GUARANTEE: Page = Page {
    name: "guarantee",
    usage: "guarantee [OPTIONS] SCENARIO [EDITS]",
    summary: &["what is sure for each port, whatever is attached"],
    title: "what is sure for each port",
    words: &[SCENARIO, EDITS],
    about: "Tells of each port of the charger of the file SCENARIO, as the edit script EDITS
leaves it (one of them may be -, standard input), what holds whatever is attached to
the ports, and whatever happens and gets lost. It runs nothing: of the scenario the
settings of the ports count, and the least and the greatest budget up to the end, that
at the start among them. Cables, sinks and the other events don't. It tells

  free at least  what is free to the port whatever the other ports do: what the least
                 budget leaves where each holds its floor or its strongest supply,
                 whichever is more, and at least the port's floor
  at most        what the greatest budget leaves where each other port holds its floor
  resets it      a port that holds no more than this stays as it is when the budget
                 changes; one that holds more may be reset by a Hard Reset
  offered        the least current at which each supply stands in each
                 Source_Capabilities, with a cable that is known to carry 5 A, and with
                 another

",
    column: 17,
    options: &[
        Flag(
            "json",
            &["a JSON object for each line, with units in its keys (_mv, _ma, _uw)"],
        ),
        KEEP_GOING,
    ],
    end: "
example: pdlab guarantee examples/derating.toml

status: 0 it was told, 1 the scenario or a line of EDITS is refused,
        2 the words are others, 3 a file can't be read, or a fault
",
};

const SWEEP: Page = Page {
    name: "sweep",
    usage: "sweep SCENARIO [EDITS] [OPTIONS]",
    summary: &["each packet lost in turn, and what that leads to"],
    title: "each packet lost in turn",
    words: &[SCENARIO, EDITS],
    about: "Runs the charger of the file SCENARIO, as the edit script EDITS leaves it (one of
them may be -, standard input), and then once more for each packet that starts in that run, with
that packet lost. Tells of each, in the order of time: the packet, whether the
contracts at the end are the same, how much later the last change of a contract
comes, how many faults and Hard Resets there are more, and the least that the
contracts leave of the budget, in microwatts; where that is less than without the
loss, when, and by which ports: those of which a contract is made then. At the end
how many packets were tried, how many of the runs end with other contracts, and the
worst of each column. Where a line of EDITS is refused, nothing is told but why, on
standard error. A terminal is shown there how far it is.

",
    column: 17,
    options: &[
        Value(
            "port",
            "P",
            &["packets of this port alone; ports are numbered from 1"],
        ),
        Value(
            "from",
            "T",
            &["packets from this time on: 3s, 54.9ms, or microseconds"],
        ),
        Value("to", "T", &["packets up to this time"]),
        Value(
            "kind",
            "NAME",
            &["packets of this message alone, as Request or GoodCRC"],
        ),
        Flag("damage", &["damages the packet in place of losing it"]),
        Value(
            "in-a-row",
            "K",
            &[
                "loses the packet and those that start behind it on its port, K in",
                "all, 1 to 8",
            ],
        ),
        Value(
            "any",
            "K",
            &[
                "loses each set of up to K of these packets too, 1 to 3: the second is",
                "one that starts behind the first in the run in which that is lost",
            ],
        ),
        Value(
            "most",
            "N",
            &["makes N runs at most, and tells where sets of packets are left"],
        ),
        Flag(
            "changed",
            &["only the lines of packets whose loss makes a difference"],
        ),
        Value(
            "by",
            "message",
            &["a line for each kind of message in place of one for each packet"],
        ),
        Value(
            "part",
            "I/N",
            &["the I-th of N shares of the packets, as 2/3; N is 1 to 1000"],
        ),
        Value(
            "reserve",
            "POWER",
            &[
                "each of these runs is to leave so much of the budget: 5W, 500mW, or",
                "milliwatts",
            ],
        ),
        Value(
            "fail-on",
            "LIST",
            &[
                "what gives status 1, with commas between: other-contracts at the end,",
                "hard-resets where there are more, less-power=TIME where a port has less",
                "power for longer, and margin=POWER, which is what --reserve is",
            ],
        ),
        Value(
            "noise",
            "PERCENT",
            &[
                "in place of a packet in turn, each is lost by lot with this",
                "probability, as 5 or 0.125, in many runs; tells what these come to",
            ],
        ),
        Value(
            "runs",
            "N",
            &["with --noise: so many runs, 1 to 1000000; 100 where it is left out"],
        ),
        Value(
            "run",
            "I",
            &["with --noise: the run of this number alone, 1 to 1000000"],
        ),
        Value(
            "seed",
            "S",
            &["with --noise: other lots, 0 to 4294967295; 1 where it is left out"],
        ),
        Flag(
            "as-edits",
            &["with --noise: the losses of the worst run as an edit script"],
        ),
        Flag(
            "json",
            &[
                "a JSON object for each packet and one for the summary, with units",
                "in its keys (_us, _mv, _ma, _mw, _uw)",
            ],
        ),
        Flag(
            "csv",
            &[
                "comma-separated values for each packet, behind a line with their",
                "names; no summary",
            ],
        ),
        KEEP_GOING,
    ],
    end: "
example: pdlab sweep --kind Request examples/charger_65w.toml
  pdlab sweep --csv examples/derating.toml > derating.csv

status: 0 the packets were tried, 1 a run left less than POWER, no packet was tried, the
        scenario or a line of EDITS is refused, or there is no such port,
        2 the words are others, 3 a file can't be read, or a fault
",
};

const VARY: Page = Page {
    name: "vary",
    usage: "vary SCENARIO [EDITS] --set 'LINE=VALUES' [OPTIONS]",
    summary: &["each combination of values of edit lines, and its run"],
    title: "each combination of values of edit lines, and its run",
    words: &[SCENARIO, EDITS],
    about: "Makes edits on the scenario of the file SCENARIO, as the edit script EDITS leaves it
(one of them may be -, standard input), runs what they leave, and tells what is measured
of that run: a line for each combination of values, the values of the first --set
turning slowest. Where an edit is refused, the line says which, by its number and why,
and nothing is run. There are at most 1000000 lines. These are the names of what may be
told; those in the first four lines have a port behind them, as power 1

  voltage, current, power      of the port's contract at the end
  least power, greatest power  of all its contracts
  less power, more power       for how long its power is less, or more, than without the
                               edits
  differs until                until when its contract is another
  margin, lowest at            the least that is left of the budget, and when that is
                               first
  faults, hard resets          how many there are

",
    column: 23,
    options: &[
        Values(
            "set",
            "'LINE=VALUES'",
            &[
                "LINE is a line of an edit script with one place {} in it, and",
                "VALUES are what stands there in turn: with commas between them,",
                "or a range FROM..TO/STEP. Numbers may have units: 60W, 3.25A,",
                "20V, 500ms. It may stand several times",
            ],
        ),
        Any(
            "where",
            "LINE",
            &[
                "LINE is an expectation of a test script, as expect margin",
                "at_least 5W: tells of each run whether it is met. It may stand",
                "several times",
            ],
        ),
        Value(
            "tell",
            "NAMES",
            &[
                "what is told, with commas between the names: margin, faults, hard",
                "resets where it isn't given",
            ],
        ),
        Value(
            "draw",
            "FILE",
            &[
                "writes a picture of what is told (SVG) to the file FILE, too: of",
                "one --set lines, with 2000 values at most; of two colours, with",
                "100 values of each at most",
            ],
        ),
        Flag(
            "json",
            &["a JSON object for each line, with units in its keys (_us, _mv)"],
        ),
        Flag("csv", &["comma-separated values, with a head"]),
        Flag(
            "keep-going",
            &[
                "passes over refused lines of EDITS: they change nothing, and the",
                "status is 1 all the same",
            ],
        ),
    ],
    end: "
example: pdlab vary examples/dock_100w.toml --set 'floor 1 {}=45W..65W/5W' \\
           --tell 'least power 1, less power 2, margin'

status: 0 it was told, 1 the scenario or a line of EDITS is refused, or there is no
        such port, 2 the words are others, 3 a file can't be read, or a fault
",
};

const TEST: Page = Page {
    name: "test",
    usage: "test [--json] [-v] [--junit FILE] SCRIPT..",
    summary: &["whether runs are as scripts expect them"],
    title: "whether runs are as scripts expect them",
    words: &[Several("SCRIPT")],
    about: "Goes through the file SCRIPT, whose line `# scenario FILE` names the scenario, a file
beside it; one SCRIPT may be -, standard input, with the file in this folder. Its other
lines are those of an edit script, and beside them

  expect contract PORT TIME [voltage RANGE] [current RANGE] [power at_least POWER]
  expect no contract PORT TIME
  expect margin at_least POWER [TIME]
  expect faults none
  expect no fault [PORT] [\"WORDS\"] [TIME]
  expect faults PORT at_most NUMBER [but \"WORDS\"]..
  expect fault PORT \"WORDS\"
  expect packet PORT SIDE NAME between FROM TO
  lose NTH NAME of port PORT

Each expectation is held against the run of the scenario as the lines before it left
it. Times are in microseconds, voltages in mV, currents in mA, or have their unit behind
them, as 54.9ms, 20V and 1.5A; a POWER always has its unit, as 5W. RANGE is a number, or
two as 1500..3000. TIME is at T, from T to T, from T, or to T: it is so at the end of
each of these instants, and without TIME of all up to the end. WORDS are those of show
faults; others are refused. SIDE is src, snk or cbl, and NAME that of a message, as
Request. lose loses the NTH such packet of the run, wherever edits have moved it. What
stands behind a # is passed over, and shows are too.

Each line that fails is told with what there is, and each that is refused with the
reason; at the end how many expectations passed and failed. A script that can't be
gone through is told, and the others go on; the worst status is that of all.

",
    column: 17,
    options: &[
        Flag(
            "json",
            &[
                "a JSON object for each of these lines, and for each expectation that",
                "passes: file, line, and passed, expected and found, refusal and",
                "sentence, not_lost, or not_tried; and one for the counts: passed,",
                "failed, refused",
            ],
        ),
        Switch(
            'v',
            "verbose",
            &["each expectation that passes is told, too"],
        ),
        Value(
            "junit",
            "FILE",
            &[
                "writes a report in JUnit's form to FILE, too: a case for each of these",
                "lines, passing or not",
            ],
        ),
    ],
    end: "
example: pdlab test examples/charger_65w.test

status: 0 all passed, 1 one failed, a line or a scenario is refused, or a script
        expects nothing, 2 the words are others, 3 a file can't be read or written,
        or a fault
",
};

const DRAW: Page = Page {
    name: "draw",
    usage: "draw SCENARIO [EDITS] [OPTIONS]",
    summary: &["a picture of a run, as SVG for a browser"],
    title: "a picture of a run",
    words: &[SCENARIO, EDITS],
    about: "Runs the charger of the file SCENARIO, as the edit script EDITS leaves it (one of
them may be -, standard input), and writes a picture of the run, an SVG that any browser shows:
the shared budget as a line over time, the contracts of the ports stacked below it,
and the least margin with its value and its time; and below that a lane for each
port, with the phases of its source, events, contracts, faults and packets. A packet
that is lost or damaged is a red cross, with the event that did it. A browser tells
more of each where the pointer is on it. Where a line of EDITS is refused, nothing is
drawn, and standard error says why.

",
    column: 17,
    options: &[
        Value(
            "port",
            "P",
            &["the lane of this port alone; ports are numbered from 1"],
        ),
        FROM,
        TO,
        Value(
            "width",
            "PX",
            &["the width of the picture, 1000 to 10000 pixels; 1200 if left out"],
        ),
        Flag(
            "holds",
            &[
                "with what each port holds of the budget, as a broken line from the",
                "contracts of the ports before it",
            ],
        ),
        OUT,
        KEEP_GOING,
    ],
    end: "
example: pdlab draw examples/derating.toml > derating.svg

status: 0 the run was drawn, 1 the scenario or a line of EDITS is refused, there is no
        such port, or the run ends before T,
        2 the words are others, 3 a file can't be read, or a fault
",
};

const PAGE: Page = Page {
    name: "page",
    usage: "page SCENARIO [EDITS] [OPTIONS]",
    summary: &["the page of the bench, with a scenario in it"],
    title: "the page of the bench, with a scenario in it",
    words: &[SCENARIO, EDITS],
    about: "Writes the page of the bench, which runs in a browser with nothing installed, with
the scenario of the file SCENARIO and the edit script EDITS in it (one of them may be
-, standard input). Where a line of EDITS is refused, nothing is written, and standard
error says why.

",
    column: 17,
    options: &[
        Value(
            "page",
            "FILE",
            &[
                "the page's file, as tools/page builds it; pdbench.html beside this",
                "program if left out",
            ],
        ),
        OUT,
        KEEP_GOING,
    ],
    end: "
example: pdlab page --page out/pdbench.html -o run.html examples/derating.toml

status: 0 the page was written, 1 the scenario or a line of EDITS is refused,
        2 the words are others, 3 a file can't be read, or is no page, or a fault
",
};

const EXPLAIN: Page = Page {
    name: "explain",
    usage: "explain [--json] [--strict] SCENARIO [EDITS]",
    summary: &[
        "why a scenario, or lines of an edit script, are refused,",
        "and what is surely not meant",
    ],
    title: "why a scenario, or lines of an edit script, are refused",
    words: &[SCENARIO, EDITS],
    about: "Goes through the edit script EDITS against the charger of the file SCENARIO (each of
at most 1 MiB; one of them may be -, standard input), and tells of each line that
pdbench would refuse where it breaks the rule and what would be right there: a line
for each place, behind the script's name and the number of its line. A line is held against the
scenario as the lines before it left it. Where SCENARIO is refused, with EDITS or
without, tells each place at which it breaks a rule, behind the file's name and the
line of its key or of its table, where that can be told, those of the least refusal
first: 20 of them at most, and that there are more.

Else warns of what is surely not meant in the scenario, as EDITS leaves it: events
after the end, events that do nothing and why, disturbances that meet no packet,
cables and sinks that no event attaches, and ports that get too little power beside
the floors of the others. A warning begins with the line of EDITS that made what
it is of, or changed it last, else with SCENARIO. The status stays as it is, but
for --strict.

Where something else is likelier meant than the number says, a hint ends the line.

",
    column: 13,
    options: &[
        Flag(
            "json",
            &[
                "a JSON object for each line: file, line, refusal or warning, table,",
                "number, key, sentence and hint",
            ],
        ),
        Flag("strict", &["a warning gives status 1, as a refusal does"]),
    ],
    end: "
Numbers are those of pdbench: times in microseconds, voltages in mV, currents in
mA, powers in mW.

example: pdlab explain mine.toml
  mine.toml:34: refused 5: event 3: `at` is 130000000, not 0 to 120000000 us
  mine.toml:24: refused 10: event 1: `sink` is `fone`, the name of no sink; there are `phone`
example: pdlab explain mine.toml mine.edits
  mine.edits:4: refused 24: no cable is named `thic`; there are thick, c5; hint: did you mean `thick`?
  mine.edits:9: warning: event 12 at 3000000 is after the end, 2000000: it never happens

status: 0 no line is refused, 1 a line or the scenario is refused, or with --strict
        something is warned of, 2 the words are others, 3 a file can't be read, or a fault
",
};

const DECODE: Page = Page {
    name: "decode",
    usage: "decode [--json] [--with-line] [FILE]",
    summary: &["what the lines of a log say"],
    title: "what the lines of a log say",
    words: &[May("FILE")],
    about: "Reads the file FILE, of any length, or standard input where it is - or left out,
and tells of each line, behind its number, the packet that it holds, field by field.

A line may hold
  codes          18 18 18 11 09 12 .., with 0x before them or without, parted by
                 spaces, commas or tabs; Sync-1, Sync-2, Sync-3, RST-1, RST-2 and
                 EOP by their names; or five binary digits, 11000 11000 ..
  a transcript   a line of pdbench's show transcript, with lost or damaged
  words          a header and objects: 11A1 0001912C; PD RX, header: 0x161 [1];
                 RECV 11a1/1 0001912C, as SEND, RX and TX; [0]0001912C
  bytes          low byte first: A1 11 2C 91 01 00, a1112c910100, or behind their
                 count, as a port's registers have them
  a table's row  behind a head that names its columns, as Time,SOP,Header,Data,
                 with commas, semicolons or tabs between them
  annotations    of sigrok-cli's decoder: usb_power_delivery-1: H:21a1
Objects may follow their header in lines of their own, as [0]0001912C or, in a
kernel's log, PDO 0: type 0, 5000 mV, 3000 mA [E]; the last one tells the packet.
A log's own time, as [   12.345678], stands before what its line tells. Codes that
spell no packet, and are none as bytes, are told with the first fault and the place
of the code. Lines of a log on other things are passed over. A line that begins
with # or =, an empty one, and what pdbench answers to an edit, as ok, tell nothing.
Any other line is told to be of unknown form, as those of pdlab show, which tell what
packets say themselves.

",
    column: 17,
    options: &[
        Flag(
            "json",
            &[
                "a JSON object for each line in place of words, with units in its keys",
                "(_mv, _ma, _mw)",
            ],
        ),
        Flag(
            "with-line",
            &["repeats the log's line before what it tells"],
        ),
    ],
    end: "
example: pdlab decode --json capture.txt
  grep RECV controller.log | pdlab decode

status: 0 each line was read, 1 a line has a fault or is of unknown form,
        2 the words are others, 3 the file can't be read, or a fault
",
};

const NEW: Page = Page {
    name: "new",
    usage: "new [PORTS]",
    summary: &["a scenario to begin with, its keys explained"],
    title: "a scenario to begin with",
    words: &[May("PORTS")],
    about: "Writes a scenario of PORTS ports, 1 to 8, or of 2. Comments say what each key is, and
in which unit. The ports have usual supplies and 60 W each; a laptop comes to every
second port through a cable for 5 A, a phone to the others through one for 3 A; after
two seconds the laptop leaves port 1, and a phone comes there.

",
    column: 17,
    options: &[],
    end: "example: pdlab new 3 > mine.toml
  pdlab show mine.toml

status: 0 it was written, 2 the words are others, 3 it can't be written, or a fault
",
};

const SCHEMA: Page = Page {
    name: "schema",
    usage: "schema",
    summary: &["the JSON Schema of scenarios, for an editor"],
    title: "the JSON Schema of scenarios, for an editor",
    words: &[],
    about: "Writes the JSON Schema (draft-07) of scenario files, of versions 1 and 2. An editor that
reads it completes keys and words, shows what a key is and in which unit, and marks
what check would refuse: keys, types, what is missing, ranges, words and names. What
needs more than one table it doesn't see: ports that aren't there, names and ids that
stand twice or nowhere, voltages that don't rise, floors above the budget.

taplo, and VS Code with Even Better TOML, find it by the first line of a scenario:
  #:schema ./pdbench.schema.json

",
    column: 17,
    options: &[],
    end: "example: pdlab schema > pdbench.schema.json

status: 0 it was written, 2 the words are others, 3 it can't be written, or a fault
",
};

/// What `pdlab --help` says before it tells of the commands, and behind that.
pub const FRONT: &str = "pdlab: the engineer's desk

usage: pdlab COMMAND ..

";

pub const BACK: &str =
    "  COMMAND --help            tells more of a command, with an example; help COMMAND too
  -h, --help                prints this
  -V, --version             prints the version, and of what it was built where that is known

One of the files that are read may be -, standard input; not the scenario of live.

status: 0 all is well, 1 the input is refused, 2 the words are others,
        3 a file can't be read, or a fault; 141 nobody reads the answers any more
";

/// How the program is used.
pub const USAGE: &str =
    "COMMAND ..; there are live, show, why, guarantee, sweep, vary, test, draw, page, explain, decode, new and schema; pdlab --help tells \
    of them";

/// `pdlab live`
fn live() -> &'static Page<'static>
    ensures { shape result.now ≡ live }
{
    &LIVE
}

/// `pdlab show`
fn show() -> &'static Page<'static>
    ensures { shape result.now ≡ show }
{
    &SHOW
}

/// `pdlab why`
fn why() -> &'static Page<'static>
    ensures { shape result.now ≡ why }
{
    &WHY
}

/// `pdlab guarantee`
fn guarantee() -> &'static Page<'static>
    ensures { shape result.now ≡ guarantee }
{
    &GUARANTEE
}

/// `pdlab sweep`
fn sweep() -> &'static Page<'static>
    ensures { shape result.now ≡ sweep }
{
    &SWEEP
}

/// `pdlab vary`
fn vary() -> &'static Page<'static>
    ensures { shape result.now ≡ vary }
{
    &VARY
}

/// `pdlab test`
fn test() -> &'static Page<'static>
    ensures { shape result.now ≡ test }
{
    &TEST
}

/// `pdlab draw`
fn draw() -> &'static Page<'static>
    ensures { shape result.now ≡ draw }
{
    &DRAW
}

/// `pdlab page`
fn page() -> &'static Page<'static>
    ensures { shape result.now ≡ page }
{
    &PAGE
}

/// `pdlab explain`
fn explain() -> &'static Page<'static>
    ensures { shape result.now ≡ explain }
{
    &EXPLAIN
}

/// `pdlab decode`
fn decode() -> &'static Page<'static>
    ensures { shape result.now ≡ decode }
{
    &DECODE
}

/// `pdlab new`
fn new() -> &'static Page<'static>
    ensures { shape result.now ≡ new }
{
    &NEW
}

/// `pdlab schema`
fn schema() -> &'static Page<'static>
    ensures { shape result.now ≡ schema }
{
    &SCHEMA
}

/// The commands, with all that may stand behind their names.
#[tactic(auto, unfolding(crate::specs::Lab::lab))]
pub fn pages() -> [&'static Page<'static>; 13]
    ensures { map (λ page. shape page.now) result ≡ lab.subs }
{
    [
        live(),
        show(),
        why(),
        guarantee(),
        sweep(),
        vary(),
        test(),
        draw(),
        page(),
        explain(),
        decode(),
        new(),
        schema(),
    ]
}
