// The calls of a script: the machine's call for a line is made, what it gives back is printed, and the books are handed on.
ghost use Rattle.std.specs.Prelude.{◌≡◌};
ghost use Rattle.play.specs.Made.{given_of, PlayedLent};

use crate::{print_log, print_table, save};
use machine::books::{Books, Told};
use rules::numbers::GRANTED;
use rules::sizes;
use script::lines::{Line, LineKind, Said};
use script::words;
use texts::answers;
use texts::buffer::Text;

// What a call gives, or the number of its refusal.
fn given(answer: Told) -> Result<u32, u8>
    ensures { result ≡ given_of answer.number answer.answer }
{
    if answer.number == GRANTED {
        Ok(answer.answer)
    } else {
        Err(answer.number)
    }
}

// Prints what a call gave back, behind its name as it stands on the line: what a read shows, an order, the handle of a begin or a post, else
// the number alone.
fn print_answer<'a>(
    rt: &HostRuntime,
    line: Line,
    content: &[u8],
    answer: Told,
    table: &'a [u8],
    drafts: &'a [u8],
    numbers: &[u16],
) {
    let mut out = [0u8; 256];
    let mut text = Text::new(&mut out);
    let name = words::word(content, 0);
    let given = given(answer);
    match line.kind {
        LineKind::Read => {
            let books = answer.books;
            let shown = books.show(answer.number, line.first, line.second, drafts, table);
            answers::value(&mut text, name, given.map(|_| shown));
        }
        LineKind::Order => {
            let count = answer.answer as usize;
            answers::order(&mut text, name, answer.number, numbers, count);
        }
        LineKind::Begin | LineKind::Post => answers::handle(&mut text, name, given),
        _ => answers::number(&mut text, name, answer.number),
    }
    console::print(rt, &mut text);
}

// Prints whether all was saved: 0, else 1.
fn print_saved(rt: &HostRuntime, is_saved: bool) {
    let mut out = [0u8; 64];
    let mut text = Text::new(&mut out);
    answers::number(&mut text, b"save", u8::from(!is_saved));
    console::print(rt, &mut text);
}

// The lines that change nothing: they print what there is, or save it.
fn look(
    rt: &HostRuntime,
    kind: LineKind,
    content: &[u8],
    opening: &[u8],
    table: &[u8],
    log: &[u8],
    records: u16,
) {
    match kind {
        LineKind::Table => print_table(rt, table),
        LineKind::Log => print_log(rt, log, records),
        _ => {
            let is_saved = save(rt, words::word(content, 1), opening, log, records);
            print_saved(rt, is_saved);
        }
    }
}

// Plays what a line says; where that is nothing, or none of the calls, nothing is changed or printed.
// An open and a granted close begin a new day, whose opening table is the table as it is.
#[tactic(auto, unfolding(crate::specs::Made::line_outcome, crate::specs::Made::opening_after, texts::specs::Said::placed))]
pub fn play(
    rt: &HostRuntime,
    books: Books,
    said: Said,
    content: &[u8],
    opening: &mut [u8],
    table: &mut [u8],
    drafts: &mut [u8],
    log: &mut [u8],
) -> Books
    ensures { PlayedLent said books content.now opening.old table.old drafts.old log.old result opening.new table.new drafts.new log.new }
{
    let Said::Call(line) = said else {
        return books;
    };
    let kind = line.kind;
    if kind.only_looks() {
        look(rt, kind, content, opening, table, log, books.records);
        return books;
    }
    let mut numbers = [0u16; sizes::ORDER_NUMBERS];
    let answer = making::make(books, line, content, table, drafts, log, &mut numbers);
    print_answer(rt, line, content, answer, table, drafts, &numbers);
    if matches!(kind, LineKind::Open | LineKind::Close) && answer.number == GRANTED {
        Text::new(opening).put(table);
    }
    answer.books
}
