// Plays a script of calls from standard input, a call a line, and prints what each call gives back.
#![tactic(auto)]

ghost use Rattle.std.specs.Prelude.{Some};
ghost use Rattle.play.specs.Made.{PlayedHeld};

mod calls;
mod day;

use day::Standing;
use machine::books::Books;
use rules::sizes;
use script::lines::Said;
use script::{input, lines, words};
use texts::buffer::Text;
use texts::{answers, buffer};

// Where the reading stands: the books, how many lines were played, and how many bytes of the next line are held (none once it is too long).
#[derive(Clone, Copy)]
struct Session {
    books: Books,
    lines: u64,
    held: Option<usize>,
}

// What is changed in place: the line that is held, the day's opening table, and all that the machine is lent.
#[derive(Drop)]
struct Room {
    line: [u8; lines::LONGEST],
    opening: [u8; sizes::TABLE_BYTES],
    table: [u8; sizes::TABLE_BYTES],
    drafts: [u8; sizes::DRAFTS_BYTES],
    log: [u8; sizes::LOG_BYTES],
}

// A line that is none of the calls, by its number in the script.
fn print_unknown(rt: &HostRuntime, line: u64) {
    let mut out = [0u8; 64];
    let mut text = Text::new(&mut out);
    answers::unknown(&mut text, line);
    console::print(rt, &mut text);
}

// The table: its 32 values.
fn print_table(rt: &HostRuntime, table: &[u8]) {
    let mut out = [0u8; 640];
    let mut text = Text::new(&mut out);
    answers::table(&mut text, table);
    console::print(rt, &mut text);
}

// Sixteen bytes of the log.
fn print_bytes(rt: &HostRuntime, bytes: &[u8]) {
    let mut out = [0u8; 64];
    let mut text = Text::new(&mut out);
    text.put_hex(bytes);
    console::print(rt, &mut text);
}

// The log as it stands: a line for each record, then the trailer.
fn print_log(rt: &HostRuntime, log: &[u8], records: u16) {
    let standing = Standing::of(log, records);
    for record in standing.records.chunks_exact(sizes::RECORD_BYTES) {
        print_bytes(rt, record);
    }
    print_bytes(rt, &standing.trailer);
}

// Saves the opening table and the log as it stands: false where not all is written.
fn save(rt: &HostRuntime, name: &[u8], opening: &[u8], log: &[u8], records: u16) -> bool {
    let standing = Standing::of(log, records);
    console::save(rt, name, opening, standing.records, &standing.trailer)
}

// Plays a line with so many bytes.
fn play_whole(rt: &HostRuntime, books: Books, number: u64, held: usize, room: &mut Room) -> Books
    ensures { PlayedHeld (Some held) books room.old result room.new }
{
    let content = words::content(buffer::front(&room.line, held));
    let said = lines::parse(content);
    if matches!(said, Said::Unknown) {
        print_unknown(rt, number);
    }
    calls::play(
        rt,
        books,
        said,
        content,
        &mut room.opening,
        &mut room.table,
        &mut room.drafts,
        &mut room.log,
    )
}

// Plays the line that is held. A line that is longer than its buffer is none of the calls.
fn play_line(rt: &HostRuntime, session: Session, room: &mut Room) -> Session
    ensures { PlayedHeld session.held session.books room.old result.books room.new }
{
    let lines = session.lines.wrapping_add(1);
    let books = match session.held {
        Some(held) => play_whole(rt, session.books, lines, held, room),
        None => {
            print_unknown(rt, lines);
            session.books
        }
    };
    Session {
        books,
        lines,
        held: Some(0),
    }
}

// Plays the lines that end in a piece of the script, and holds what is left of it.
fn play_piece(rt: &HostRuntime, start: Session, piece: &[u8], room: &mut Room) -> Session {
    let mut session = start;
    let mut at = 0;
    // A `while`: each line takes as many bytes as it has.
    while at < piece.len() {
        let taken = input::take_line(piece, at, &mut room.line, session.held);
        at = taken.at;
        session.held = taken.held;
        if taken.whole {
            session = play_line(rt, session, room);
        }
    }
    session
}

// Plays the whole script, its last line too if it has no end. A loop has to end, so the pieces are counted, up to a number that no run uses up.
fn play_all(rt: &HostRuntime, start: Session, room: &mut Room) {
    let mut session = start;
    let mut piece = [0u8; 4096];
    for _ in 0..u64::MAX {
        let n = console::read_some(rt, &mut piece);
        if n == 0 {
            break;
        }
        session = play_piece(rt, session, &piece[..n], room);
    }
    play_line(rt, session, room);
}

fn main(rt: HostRuntime) {
    let mut room = Room {
        line: [0; lines::LONGEST],
        opening: [0; sizes::TABLE_BYTES],
        table: [0; sizes::TABLE_BYTES],
        drafts: [0; sizes::DRAFTS_BYTES],
        log: [0; sizes::LOG_BYTES],
    };
    let start = Session {
        books: Books::open(),
        lines: 0,
        held: Some(0),
    };
    play_all(&rt, start, &mut room);
}
