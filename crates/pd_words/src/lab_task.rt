//! What a command line of `pdlab` may ask for, and why it asks for nothing.

use pd_header::Kind;

/// The files of a command that is about one charger; the name `-` is standard input.
#[derive(Clone, Copy)]
pub struct Scene<'a> {
    pub scenario: &'a str,
    /// The edit script that is followed first, where there is one.
    pub edits: Option<&'a str>,
    /// Whether a refused line of it is passed over.
    pub keep_going: bool,
    /// The file that is written in place of standard output, where one is named.
    pub out: Option<&'a str>,
}

/// A part of a run: of one port, numbered from 1, or of all, and from one time to another, in microseconds.
#[derive(Clone, Copy)]
pub struct Window {
    pub port: Option<usize>,
    pub from: u64,
    pub to: u64,
}

/// How something is told.
#[derive(Clone, Copy)]
pub enum Form {
    Words,
    Json,
    Csv,
}

/// How a run is shown: with the GoodCRC messages or without, and with the codes on the line or without.
#[derive(Clone, Copy)]
pub struct ShowOptions {
    pub window: Window,
    pub good_crc: bool,
    pub codes: bool,
    pub form: Form,
}

/// What is asked of a port: its last offer, or each one up to a time in microseconds; as JSON objects, or in words.
#[derive(Clone, Copy)]
pub struct WhyOptions {
    pub port: usize,
    pub at: Option<u64>,
    pub json: bool,
}

/// One of several shares of the packets: `part` is 1 to `parts`, and that at most 1,000.
#[derive(Clone, Copy)]
pub struct Share {
    pub part: u64,
    pub parts: u64,
}

/// What makes a run of a sweep fail: other contracts at the end, a Hard Reset more, or less power for more than so many microseconds.
#[derive(Clone, Copy)]
pub struct FailOn {
    pub other_contracts: bool,
    pub hard_resets: bool,
    pub less_power: Option<u64>,
}

/// What a list of the words says of each run: what makes it fail, and what it is to leave of the budget, in milliwatts.
#[derive(Clone, Copy)]
pub struct Limits {
    pub fail_on: FailOn,
    pub margin: Option<u64>,
}

/// Which packets are lost in turn, or damaged, and how that is told.
#[derive(Clone, Copy)]
pub struct SweepOptions {
    /// The part of the run whose packets these are.
    pub window: Window,
    /// The message that all of them are of, where one is named.
    pub kind: Option<Kind>,
    pub damage: bool,
    /// How many packets behind each on its port are lost with it.
    pub behind: u64,
    /// How many of these packets are lost in one run at most: 1 to 3.
    pub any: u64,
    /// How many runs are made at most, where that is said.
    pub most: Option<u64>,
    /// Whether packets are left out whose loss makes no difference.
    pub changed: bool,
    /// Whether there is a line for each kind of message in place of one for each packet.
    pub by_message: bool,
    /// The share of the packets, where not all of them are lost in turn.
    pub share: Option<Share>,
    /// What each run is to leave of the budget, in milliwatts, where that is asked.
    pub reserve: Option<u64>,
    pub fail_on: FailOn,
    pub form: Form,
}

/// Which packets are lost by lot, in which runs, and how that is told.
#[derive(Clone, Copy)]
pub struct NoiseOptions {
    /// The part of the run whose packets these are.
    pub window: Window,
    /// The message that all of them are of, where one is named.
    pub kind: Option<Kind>,
    /// How many of 100,000 packets are lost on average, 1 to 100,000.
    pub share: u32,
    /// The number of the first run, 1 to 1,000,000, and how many they are.
    pub first: u32,
    pub runs: u32,
    /// What the lots of all runs depend on.
    pub seed: u32,
    /// Whether the losses of the worst run are written as an edit script.
    pub as_edits: bool,
}

/// Which edit lines are varied, each with its values, what is asked of each run, what is measured of it, where that is said, and the
/// file that a picture of that is written to, where one is named.
#[derive(Drop)]
pub struct VaryOptions<'a> {
    pub sets: Vec<&'a str>,
    pub wheres: Vec<&'a str>,
    pub tell: Option<&'a str>,
    pub draw: Option<&'a str>,
    pub form: Form,
}

/// What is drawn of a run, so many pixels wide, 1,000 to 10,000, and whether what the ports hold is drawn too.
#[derive(Clone, Copy)]
pub struct DrawOptions {
    pub window: Window,
    pub width: u32,
    pub holds: bool,
}

/// How it is told why a scenario or lines are refused: as JSON objects, or in words; and whether warnings count as refusals.
#[derive(Clone, Copy)]
pub struct ExplainOptions {
    pub json: bool,
    pub strict: bool,
}

/// How it is told whether runs are as test scripts expect them: as JSON objects, or in words; whether the lines that pass are told
/// in words, too; and the file that JUnit's form of it is written to, where one is named.
#[derive(Clone, Copy)]
pub struct TestOptions<'a> {
    pub json: bool,
    pub verbose: bool,
    pub junit: Option<&'a str>,
}

/// How a log is told: as JSON objects, or in words; and whether each of its lines is repeated.
#[derive(Clone, Copy)]
pub struct DecodeOptions {
    pub json: bool,
    pub with_line: bool,
}

/// What a command line asks for, by the name of its command.
#[derive(Drop)]
pub enum LabTask<'a> {
    /// A session at the keyboard, for the scenario of a file.
    Live(&'a str),
    /// A run as an engineer reads it.
    Show(Scene<'a>, ShowOptions),
    /// What bounds a port.
    Why(Scene<'a>, WhyOptions),
    /// What is sure for each port.
    Guarantee(Scene<'a>, bool),
    /// What a lost packet leads to.
    Sweep(Scene<'a>, SweepOptions),
    /// What packets lost by lot lead to, in many runs.
    Noise(Scene<'a>, NoiseOptions),
    /// What comes of each combination of values of edit lines.
    Vary(Scene<'a>, VaryOptions<'a>),
    /// Whether runs are as test scripts expect them.
    Test(Vec<&'a str>, TestOptions<'a>),
    /// A picture of a run.
    Draw(Scene<'a>, DrawOptions),
    /// The page with a scenario in it, which is made of the file of this name.
    Page(Scene<'a>, Option<&'a str>),
    /// Why a scenario or lines of its edit script are refused.
    Explain(Scene<'a>, ExplainOptions),
    /// What the lines of a log say.
    Decode(&'a str, DecodeOptions),
    /// A scenario of so many ports to begin with, 1 to 8.
    New(usize),
    /// What may be in a scenario file, as a JSON Schema.
    Schema,
}

/// A number that a command may be given: its name in the help, and what it may be.
#[derive(Clone, Copy)]
pub struct Wanted {
    pub name: &'static str,
    pub range: &'static str,
}

/// Why a command line asks for nothing.
#[derive(Drop)]
pub enum LabFault<'a> {
    /// It asks how the program is used, or the command of this name.
    Help(&'a str),
    /// It asks for the program's version.
    Version,
    /// There is no memory to read it.
    Memory,
    /// Its words are others; a sentence says which is wrong, where that is known.
    Words(Option<String>),
    /// An option that excludes another one was given with it.
    Both(&'static str, &'static str),
    /// An option was given that stands beside another one alone, which wasn't.
    Without(&'static str, &'static str),
    /// A part of a run is asked for that ends before it begins.
    Window(Window),
    /// A word isn't the number that is wanted there.
    Number { wanted: Wanted, word: &'a str },
    /// No message has this name.
    Kind(&'a str),
    /// Standard input is named for two things.
    Twice,
}
