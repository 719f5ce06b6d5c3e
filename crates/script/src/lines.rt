// The call that a line of a script names.
ghost use Rattle.std.specs.Prelude.{◌≡◌, length, take, drop};
ghost use Rattle.std.specs.Str.{bytes_eq};
ghost use Rattle.script.specs.Fronts.{Front};
ghost use Rattle.script.specs.Numeral.{named};
ghost use Rattle.script.specs.Blanks.{word_of};
ghost use Rattle.script.specs.LineCalls.{name, kind_of, form_of, only_looks, has_words, has_value, value_on, argument, call_named, call_of};

use crate::{numbers, values, words};

// A line that is longer than 255 bytes is none of the calls, and a value on a line has room for 128 bytes.
pub const LONGEST: usize = 255;

pub const VALUE_ROOM: usize = 128;

// The calls that a line can name; the last three only look.
#[derive(Clone, Copy, PartialEq, Eq)]
pub enum LineKind {
    Begin,
    Write,
    Read,
    Commit,
    GiveUp,
    Post,
    Order,
    Close,
    Open,
    Table,
    Log,
    Save,
}

// How a call is written: how many words it has, how many of them are numbers, behind its name, and which word is its value.
#[derive(Clone, Copy)]
struct Form {
    words: usize,
    numbers: usize,
    value: Option<usize>,
}

// A line with a call: its kind, and the numbers of the call (0 where it has none).
#[derive(Clone, Copy)]
pub struct Line {
    pub kind: LineKind,
    pub first: u32,
    pub second: u32,
}

// What a line says: nothing, none of the calls, or a call.
#[derive(Clone, Copy)]
pub enum Said {
    Nothing,
    Unknown,
    Call(Line),
}

// All the calls.
const KINDS: [LineKind; 12] = [
    LineKind::Begin,
    LineKind::Write,
    LineKind::Read,
    LineKind::Commit,
    LineKind::GiveUp,
    LineKind::Post,
    LineKind::Order,
    LineKind::Close,
    LineKind::Open,
    LineKind::Table,
    LineKind::Log,
    LineKind::Save,
];

impl LineKind {
    // Its name.
    #[tactic(auto, unfolding(basics::specs::Text::text))]
    fn name(self) -> &'static [u8]
        ensures { result.now ≡ name self }
    {
        match self {
            LineKind::Begin => b"begin",
            LineKind::Write => b"write",
            LineKind::Read => b"read",
            LineKind::Commit => b"commit",
            LineKind::GiveUp => b"giveup",
            LineKind::Post => b"post",
            LineKind::Order => b"order",
            LineKind::Close => b"close",
            LineKind::Open => b"open",
            LineKind::Table => b"table",
            LineKind::Log => b"log",
            LineKind::Save => b"save",
        }
    }

    // A word is its name.
    fn has_name(self, word: &[u8]) -> bool
        ensures { result ≡ bytes_eq (name self) word.now }
    {
        self.name() == word
    }

    // The call of that name.
    #[tactic(auto, unfolding(crate::specs::LineCalls::kind_of))]
    fn named(word: &[u8]) -> Option<LineKind>
        ensures { result ≡ kind_of word.now }
    {
        KINDS.iter().copied().find(|kind| kind.has_name(word))
    }

    // How it is written.
    #[tactic(auto, unfolding(crate::specs::LineCalls::form_of))]
    fn form(self) -> Form
        ensures { result ≡ form_of self }
    {
        let (words, numbers, value) = match self {
            LineKind::Begin | LineKind::Close | LineKind::Open => (1, 0, None),
            LineKind::Write => (4, 2, Some(3)),
            LineKind::Read => (3, 2, None),
            LineKind::Commit | LineKind::GiveUp | LineKind::Order => (2, 1, None),
            LineKind::Post => (3, 1, Some(2)),
            LineKind::Table | LineKind::Log => (1, 0, None),
            LineKind::Save => (2, 0, None),
        };
        Form {
            words,
            numbers,
            value,
        }
    }

    // The lines that only look change nothing.
    pub fn only_looks(self) -> bool
        ensures { result ≡ only_looks self }
    {
        matches!(self, LineKind::Table | LineKind::Log | LineKind::Save)
    }
}

// The line has just as many words as the call.
#[tactic(auto, using(crate::proofs::Scanning::start_within), unfolding(crate::specs::LineCalls::has_words, crate::specs::LineCalls::ends_before, crate::specs::LineCalls::form_of))]
fn has_words(line: &[u8], kind: LineKind) -> bool
    ensures { result ≡ has_words line.now kind }
{
    let count = kind.form().words;
    words::start(line, count - 1).is_some() && words::start(line, count).is_none()
}

// A call's value is one: an even number of hexadecimal digits.
#[tactic(auto, unfolding(crate::specs::LineCalls::has_value, crate::specs::LineCalls::is_value))]
fn has_value(line: &[u8], kind: LineKind) -> bool
    ensures { result ≡ has_value line.now kind }
{
    match kind.form().value {
        Some(at) => values::is_hex(words::word(line, at)),
        None => true,
    }
}

// A call's first or second number; 0 where it has none.
#[tactic(auto, unfolding(crate::specs::LineCalls::argument))]
fn argument(line: &[u8], kind: LineKind, n: usize) -> Option<u32>
    ensures { named result ≡ argument line.now kind n }
{
    if kind.form().numbers < n {
        return Some(0);
    }
    numbers::number_of(words::word(line, n))
}

// The value of a call on a line, into the front of a buffer, as far as it has room; no bytes where the call has none.
#[tactic(auto, using(crate::proofs::Holding::front_taken, crate::proofs::Holding::front_rest, crate::proofs::Holding::at_most_taken, crate::proofs::Holding::at_most_within, crate::proofs::HexLaws::value_bytes_length), unfolding(crate::specs::LineCalls::value_on, crate::specs::LineCalls::value_at))]
pub fn value_of(line: &[u8], kind: LineKind, out: &mut [u8]) -> usize
    ensures front { Front result out.new }
    ensures value { take result out.new ≡ take (length out.old) (value_on line.now kind) }
    ensures rest { drop result out.new ≡ drop result out.old }
{
    match kind.form().value {
        Some(at) => values::bytes_of(words::word(line, at), out),
        None => 0,
    }
}

// The call on a line; none where the line is none of the calls.
#[tactic(auto, unfolding(crate::specs::LineCalls::call_named, crate::specs::LineCalls::is_call, crate::specs::LineCalls::with_call))]
fn call_on(line: &[u8]) -> Option<Line>
    ensures { result ≡ call_named line.now (kind_of (word_of line.now 0)) }
{
    let kind = LineKind::named(words::word(line, 0))?;
    if !has_words(line, kind) || !has_value(line, kind) {
        return None;
    }
    Some(Line {
        kind,
        first: argument(line, kind, 1)?,
        second: argument(line, kind, 2)?,
    })
}

// What a line says, its comment left out.
#[tactic(auto, using(crate::proofs::Scanning::start_within), unfolding(crate::specs::LineCalls::call_of, crate::specs::LineCalls::ends_before))]
pub fn parse(line: &[u8]) -> Said
    ensures { result ≡ call_of line.now }
{
    if words::start(line, 0).is_none() {
        return Said::Nothing;
    }
    match call_on(line) {
        Some(call) => Said::Call(call),
        None => Said::Unknown,
    }
}
