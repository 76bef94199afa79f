// The table of the commands, and the row that a word names.
#![tactic(auto)]

ghost use Rattle.std.specs.Prelude.{◌≡◌, map, length, slice_get, position, bytes_eq};
ghost use Rattle.lent.specs.Put.{Puts};
ghost use Rattle.console_table.specs.declared.Command.{Command};
ghost use Rattle.console_table.specs.declared.Parameter.{Parameter};
ghost use Rattle.console_table.specs.Table.{any, commands, named_by, usage_at};
ghost use Rattle.console_table.specs.Rows.{parameters_in, Describe, FoundAs};

use lent::Page;
use numbers::STATE_NUMBERS;
use strings::Kind;

// What a line asks for that is no call, and is answered with numbers and bytes.
#[derive(Clone, Copy)]
pub enum Verb {
    Start,
    FanFail,
    Dump,
    Load,
    Run,
    GalleyFresh,
    GalleySample,
    GalleySpan,
    GalleyDump,
    GalleyLoad,
}

// What is answered with a text of its own, and leaves what is in hand.
#[derive(Clone, Copy)]
pub enum View {
    Cabin,
    Speed,
    Show,
    Chart,
    Decode,
    GalleyRead,
    GalleyShow,
    Help,
}

// What a line asks for: a call that is handed a state, by its kind, something else, or a text.
#[derive(Clone, Copy)]
pub enum Request {
    Call(Kind),
    Verb(Verb),
    View(View),
}

// What a command asks for, or that it asks for the record of the call that follows, with the words that it has. Both are asked for,
// so neither is a `None`.
#[derive(Clone, Copy)]
pub enum Asks {
    For(Request),
    Record,
}

// A parameter of a command: a number, with the largest that it may be; a signed number, the smallest being one further from 0
// than the largest; or bytes.
#[derive(Clone, Copy)]
pub enum Parameter {
    Number(u32),
    Signed(u32),
    Bytes,
}

// The parameters that follow a command: those that are listed, the numbers of a state, or so many numbers that may each be any.
#[derive(Clone, Copy)]
pub enum Parameters {
    Listed(&'static [Parameter]),
    StateNumbers,
    Any(usize),
}

impl Parameters {
    pub fn count(self) -> usize
        ensures { result ≡ length (parameters_in self) }
    {
        match self {
            Parameters::Listed(parameters) => parameters.len(),
            Parameters::StateNumbers => STATE_NUMBERS,
            Parameters::Any(count) => count,
        }
    }

    // A parameter, counted from 0.
    pub fn get(self, i: usize) -> Option<Parameter>
        ensures { result ≡ slice_get (parameters_in self) i }
    {
        match self {
            Parameters::Listed(parameters) => parameters.get(i).copied(),
            Parameters::StateNumbers => {
                (i < STATE_NUMBERS).then_some(Parameter::Number(numbers::limit(i)))
            }
            Parameters::Any(count) => (i < count).then_some(ANY),
        }
    }

    // As many numbers, which may each be any.
    pub fn widened(self) -> Parameters
        ensures { parameters_in result ≡ map (λ (parameter : Parameter). any) (parameters_in self) }
    {
        Parameters::Any(self.count())
    }
}

// A command: the word that it begins with, and how it is written.
#[derive(Clone, Copy)]
pub struct Command {
    pub name: &'static [u8],
    pub usage: &'static [u8],
    pub asks: Asks,
    pub parameters: Parameters,
}

// A row and its place in the table, counted from 0.
#[derive(Clone, Copy)]
pub struct Found {
    pub place: usize,
    pub row: &'static Command,
}

// The largest number that a line can have.
pub const LARGEST: u32 = u32::MAX;

const ANY: Parameter = Parameter::Number(LARGEST);

const BYTE: Parameter = Parameter::Number(255);

const WORD: Parameter = Parameter::Number(65535);

const LEVEL: Parameter = Parameter::Number(1);

const ROOM: Parameter = Parameter::Number(2048);

const DEGREES: Parameter = Parameter::Signed(2147483647);

const STORED: Parameter = Parameter::Signed(32767);

const BYTES: Parameter = Parameter::Bytes;

// How many commands there are.
pub const ROWS: usize = 26;

static COMMANDS: [Command; ROWS] = [
    Command {
        name: b"start",
        usage: b"start WATCHDOG SPINUP TARGET FREQUENCY MODIFICATION",
        asks: Asks::For(Request::Verb(Verb::Start)),
        parameters: Parameters::Listed(&[ANY, ANY, ANY, BYTE, ANY]),
    },
    Command {
        name: b"write",
        usage: b"write ADDRESS BYTE",
        asks: Asks::For(Request::Call(Kind::Write)),
        parameters: Parameters::Listed(&[ANY, BYTE]),
    },
    Command {
        name: b"word",
        usage: b"word ADDRESS WORD",
        asks: Asks::For(Request::Call(Kind::WriteWord)),
        parameters: Parameters::Listed(&[ANY, WORD]),
    },
    Command {
        name: b"read",
        usage: b"read ADDRESS",
        asks: Asks::For(Request::Call(Kind::Read)),
        parameters: Parameters::Listed(&[ANY]),
    },
    Command {
        name: b"ticks",
        usage: b"ticks N",
        asks: Asks::For(Request::Call(Kind::Ticks)),
        parameters: Parameters::Listed(&[ANY]),
    },
    Command {
        name: b"tach",
        usage: b"tach CHANNEL COUNT",
        asks: Asks::For(Request::Call(Kind::Tachometer)),
        parameters: Parameters::Listed(&[ANY, ANY]),
    },
    Command {
        name: b"pulse",
        usage: b"pulse CHANNEL",
        asks: Asks::For(Request::Call(Kind::Pulse)),
        parameters: Parameters::Listed(&[ANY]),
    },
    Command {
        name: b"pin",
        usage: b"pin LEVEL",
        asks: Asks::For(Request::Call(Kind::Pin)),
        parameters: Parameters::Listed(&[LEVEL]),
    },
    Command {
        name: b"cabin",
        usage: b"cabin",
        asks: Asks::For(Request::View(View::Cabin)),
        parameters: Parameters::Listed(&[]),
    },
    Command {
        name: b"fanfail",
        usage: b"fanfail",
        asks: Asks::For(Request::Verb(Verb::FanFail)),
        parameters: Parameters::Listed(&[]),
    },
    Command {
        name: b"speed",
        usage: b"speed RANGE PULSES COUNT",
        asks: Asks::For(Request::View(View::Speed)),
        parameters: Parameters::Listed(&[ANY, ANY, ANY]),
    },
    Command {
        name: b"dump",
        usage: b"dump",
        asks: Asks::For(Request::Verb(Verb::Dump)),
        parameters: Parameters::Listed(&[]),
    },
    Command {
        name: b"load",
        usage: b"load NUMBERS",
        asks: Asks::For(Request::Verb(Verb::Load)),
        parameters: Parameters::StateNumbers,
    },
    Command {
        name: b"show",
        usage: b"show",
        asks: Asks::For(Request::View(View::Show)),
        parameters: Parameters::Listed(&[]),
    },
    Command {
        name: b"chart",
        usage: b"chart TICKS",
        asks: Asks::For(Request::View(View::Chart)),
        parameters: Parameters::Listed(&[ANY]),
    },
    Command {
        name: b"run",
        usage: b"run STRING ALLOWANCE ROOM",
        asks: Asks::For(Request::Verb(Verb::Run)),
        parameters: Parameters::Listed(&[BYTES, ANY, ROOM]),
    },
    Command {
        name: b"encode",
        usage: b"encode CALL",
        asks: Asks::Record,
        parameters: Parameters::Listed(&[]),
    },
    Command {
        name: b"decode",
        usage: b"decode STRING",
        asks: Asks::For(Request::View(View::Decode)),
        parameters: Parameters::Listed(&[BYTES]),
    },
    Command {
        name: b"gfresh",
        usage: b"gfresh HIGH OVER HYSTERESIS QUIET",
        asks: Asks::For(Request::Verb(Verb::GalleyFresh)),
        parameters: Parameters::Listed(&[DEGREES, DEGREES, LEVEL, LEVEL]),
    },
    Command {
        name: b"gsample",
        usage: b"gsample T NORMAL QUIET",
        asks: Asks::For(Request::Verb(Verb::GalleySample)),
        parameters: Parameters::Listed(&[DEGREES, BYTES, BYTES]),
    },
    Command {
        name: b"gspan",
        usage: b"gspan FIRST END NORMAL QUIET",
        asks: Asks::For(Request::Verb(Verb::GalleySpan)),
        parameters: Parameters::Listed(&[ANY, ANY, BYTES, BYTES]),
    },
    Command {
        name: b"gread",
        usage: b"gread",
        asks: Asks::For(Request::View(View::GalleyRead)),
        parameters: Parameters::Listed(&[]),
    },
    Command {
        name: b"gdump",
        usage: b"gdump",
        asks: Asks::For(Request::Verb(Verb::GalleyDump)),
        parameters: Parameters::Listed(&[]),
    },
    Command {
        name: b"gload",
        usage: b"gload NUMBERS",
        asks: Asks::For(Request::Verb(Verb::GalleyLoad)),
        parameters: Parameters::Listed(&[BYTE, STORED, STORED, STORED, LEVEL, LEVEL]),
    },
    Command {
        name: b"gshow",
        usage: b"gshow",
        asks: Asks::For(Request::View(View::GalleyShow)),
        parameters: Parameters::Listed(&[]),
    },
    Command {
        name: b"help",
        usage: b"help",
        asks: Asks::For(Request::View(View::Help)),
        parameters: Parameters::Listed(&[]),
    },
];

fn table() -> &'static [Command; ROWS]
    ensures { Describe result.now commands }
{
    &COMMANDS
}

// The place of the row that a word names.
fn place_of(rows: &[Command], word: &[u8]) -> Option<usize>
    ensures { result ≡ position (λ (row : Command). bytes_eq word.now row.name.now) rows.now }
{
    rows.iter().position(|row| word == row.name)
}

// The row that a word names.
pub fn find(word: &[u8]) -> Option<Found>
    ensures { FoundAs (named_by word.now) result }
{
    let rows = table();
    let place = place_of(rows, word)?;
    Some(Found {
        place,
        row: &rows[place],
    })
}

// Puts how the command at a place of the table is written; nothing where there is none.
pub fn put_usage(page: &mut Page, place: usize)
    ensures { Puts (usage_at place) page.old page.new }
{
    if let Some(row) = table().get(place) {
        page.put(row.usage);
    }
}
