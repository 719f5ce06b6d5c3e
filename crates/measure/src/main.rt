// Repeats a call, so that it can be measured. `measure call ROUNDS` makes the calls of a script from standard input, all but the last, and then
// the last one so many times, each time from the same books. `measure sound ROUNDS` instead tests those books for soundness so many times.
// Prints the sum of the numbers given back (or how many tests were true), the last answer, and the records of the last books.
#![tactic(auto)]

use machine::books::Books;
use machine::call;
use machine::call::Call;
use rules::sizes;
use script::lines::Said;
use script::{lines, numbers, words};
use texts::buffer::Text;

// What is repeated.
#[derive(Clone, Copy)]
enum Asked {
    Call,
    Sound,
}

// A script of so many bytes is too long.
const ROOM: usize = 262144;

// What the rounds came to: the sum of the numbers given back, the last answer, and the records of the last books.
#[derive(Clone, Copy)]
struct Came {
    sum: u64,
    answer: u32,
    records: u16,
}

// All that the machine is lent, but the order buffer.
#[derive(Drop)]
struct Lent {
    table: [u8; sizes::TABLE_BYTES],
    drafts: [u8; sizes::DRAFTS_BYTES],
    log: [u8; sizes::LOG_BYTES],
}

// No round.
fn no_round(books: Books) -> Came {
    Came {
        sum: 0,
        answer: 0,
        records: books.records,
    }
}

// Makes the call so many times, on all that is lent as the call before left it.
fn repeat(books: Books, rounds: u32, made: Call, value: &[u8], lent: &mut Lent) -> Came {
    let mut order = [0u16; sizes::ORDER_NUMBERS];
    let mut came = no_round(books);
    for _ in 0..rounds {
        let told = call::stepped(
            books,
            made,
            value,
            &mut lent.table,
            &mut lent.drafts,
            &mut lent.log,
            &mut order,
        );
        came = Came {
            sum: came.sum.wrapping_add(u64::from(told.number)),
            answer: told.answer,
            records: told.books.records,
        };
    }
    came
}

// Tests the books so many times. Each time the turn of a place is another one, which says nothing of soundness, so that each test is made.
fn weigh(start: Books, rounds: u32) -> Came {
    let mut books = start;
    let mut came = no_round(start);
    for round in 0..rounds {
        books.places[0].turn = (round % 65536) as u16;
        if books.is_sound() {
            came.sum = came.sum.wrapping_add(1);
        }
    }
    came
}

// What a line says: one that is longer than 255 bytes is none of the calls.
fn said(text: &[u8]) -> Said {
    if lines::LONGEST < text.len() {
        return Said::Unknown;
    }
    lines::parse(words::content(text))
}

// The number of the line, from 0, with the last call; none if the script has no call, or a line that is none of the calls.
fn last_call(script: &[u8]) -> Option<usize> {
    let mut last = None;
    for (i, text) in script.split(|b| *b == b'\n').enumerate() {
        match said(text) {
            Said::Nothing => {}
            Said::Unknown => return None,
            Said::Call(line) => {
                if !line.kind.only_looks() {
                    last = Some(i);
                }
            }
        }
    }
    last
}

// Makes the call of a line; the lines that only look are passed over.
fn play_line(books: Books, text: &[u8], lent: &mut Lent) -> Books {
    let content = words::content(text);
    let Said::Call(line) = lines::parse(content) else {
        return books;
    };
    if line.kind.only_looks() {
        return books;
    }
    let mut order = [0u16; sizes::ORDER_NUMBERS];
    making::make(
        books,
        line,
        content,
        &mut lent.table,
        &mut lent.drafts,
        &mut lent.log,
        &mut order,
    )
    .books
}

// Makes the calls of the first lines.
fn play_all(start: Books, script: &[u8], count: usize, lent: &mut Lent) -> Books {
    let mut books = start;
    for text in script.split(|b| *b == b'\n').take(count) {
        books = play_line(books, text, lent);
    }
    books
}

// Makes the call of a line so many times.
fn repeat_line(books: Books, rounds: u32, text: &[u8], lent: &mut Lent) -> Came {
    let content = words::content(text);
    let Said::Call(line) = lines::parse(content) else {
        return no_round(books);
    };
    let mut value = [0u8; lines::VALUE_ROOM];
    let n = lines::value_of(content, line.kind, &mut value);
    let call = making::call_for(Said::Call(line));
    repeat(books, rounds, call, &value[..n], lent)
}

// Makes the calls before the last one, which stands on a line by its number, and then does the rounds.
fn measure(asked: Asked, rounds: u32, script: &[u8], last: usize) -> Came {
    let mut lent = Lent {
        table: [0; sizes::TABLE_BYTES],
        drafts: [0; sizes::DRAFTS_BYTES],
        log: [0; sizes::LOG_BYTES],
    };
    let books = play_all(Books::open(), script, last, &mut lent);
    match asked {
        Asked::Sound => weigh(books, rounds),
        Asked::Call => {
            let text = script.split(|b| *b == b'\n').nth(last).unwrap_or(&[]);
            repeat_line(books, rounds, text, &mut lent)
        }
    }
}

// What the first argument asks for.
fn asked_for(rt: &HostRuntime) -> Option<Asked> {
    let mut word = [0u8; 4096];
    let n = console::argument(rt, 1, &mut word)?;
    match &word[..n] {
        b"call" => Some(Asked::Call),
        b"sound" => Some(Asked::Sound),
        _ => None,
    }
}

// How many rounds the second argument asks for; none for an argument that is missing, empty or no number.
fn how_many(rt: &HostRuntime) -> Option<u32> {
    let mut word = [0u8; 4096];
    let n = console::argument(rt, 2, &mut word)?;
    if n == 0 {
        return None;
    }
    numbers::number_of(&word[..n])
}

// What was asked for and how many rounds, where there are just these two arguments.
fn arguments(rt: &HostRuntime) -> Option<(Asked, u32)> {
    if console::argument_count(rt) != 3 {
        return None;
    }
    Some((asked_for(rt)?, how_many(rt)?))
}

// What the rounds came to; none where the arguments or the script are not right.
fn measured(rt: &HostRuntime, script: &[u8]) -> Option<Came> {
    let (asked, rounds) = arguments(rt)?;
    if script.len() == ROOM {
        return None;
    }
    let last = last_call(script)?;
    Some(measure(asked, rounds, script, last))
}

// Prints what the rounds came to.
fn print_came(rt: &HostRuntime, came: Came) {
    let mut out = [0u8; 64];
    let mut line = Text::new(&mut out);
    line.put_number(came.sum);
    line.put(b" ");
    line.put_number(u64::from(came.answer));
    line.put(b" ");
    line.put_number(u64::from(came.records));
    console::print(rt, &mut line);
}

fn main(rt: HostRuntime) {
    let mut input = [0u8; ROOM];
    let n = console::read_full(&rt, &mut input);
    match measured(&rt, &input[..n]) {
        Some(came) => print_came(&rt, came),
        None => {
            console::write(&rt, b"?\n");
        }
    }
}
