// Runs the trials of document 01 that no theorem states: each state is reached by calls on the machine, and what a call gives back is printed
// behind the state that it found.
#![tactic(auto)]

use machine::books::Books;
use rules::refusal::Refusal;
use rules::{refusal, sizes, statuses};
use texts::buffer::Text;

// The last handle, and the last cell.
const LAST: u32 = sizes::HANDLES - 1;

const LAST_CELL: u32 = sizes::CELLS as u32 - 1;

// All that the machine is lent.
#[derive(Drop)]
struct Lent {
    table: [u8; sizes::TABLE_BYTES],
    drafts: [u8; sizes::DRAFTS_BYTES],
    log: [u8; sizes::LOG_BYTES],
}

// A text and a number behind what is put already.
fn then(line: &mut Text, what: &[u8], n: u64) {
    line.put(what);
    line.put_number(n);
}

// A call and the number that it gave back behind what is put already, and the line is printed.
fn print_call(rt: &HostRuntime, line: &mut Text, name: &[u8], given: Result<u32, Refusal>) {
    line.put(b": ");
    line.put(name);
    then(line, b" ", u64::from(refusal::said(given.map(|_| ()))));
    console::print(rt, line);
}

// How many places have that status.
fn with_status(books: Books, status: u8) -> usize {
    books
        .places
        .iter()
        .filter(|place| place.status == status)
        .count()
}

// A call in a state of the books: records, live and committed transactions.
fn say_state(rt: &HostRuntime, books: Books, name: &[u8], given: Result<u32, Refusal>) {
    let mut out = [0u8; 128];
    let mut line = Text::new(&mut out);
    then(&mut line, b"records ", u64::from(books.records));
    then(
        &mut line,
        b" live ",
        with_status(books, statuses::LIVE) as u64,
    );
    then(
        &mut line,
        b" committed ",
        with_status(books, statuses::COMMITTED) as u64,
    );
    print_call(rt, &mut line, name, given);
}

// A call that takes or answers a handle, with the place and the turn that it names.
fn say_handle(rt: &HostRuntime, handle: u32, name: &[u8], given: Result<u32, Refusal>) {
    let mut out = [0u8; 128];
    let mut line = Text::new(&mut out);
    then(&mut line, b"handle ", u64::from(handle));
    then(
        &mut line,
        b" place ",
        u64::from(handle % sizes::HANDLES_A_TURN),
    );
    then(
        &mut line,
        b" turn ",
        u64::from(handle / sizes::HANDLES_A_TURN),
    );
    print_call(rt, &mut line, name, given);
}

// A call on something by its number.
fn say_number(rt: &HostRuntime, what: &[u8], n: u32, name: &[u8], given: Result<u32, Refusal>) {
    let mut out = [0u8; 128];
    let mut line = Text::new(&mut out);
    then(&mut line, what, u64::from(n));
    print_call(rt, &mut line, name, given);
}

// Calls that are made so many times.
fn repeated<F: FnMut(Books) -> Books>(start: Books, count: u32, mut calls: F) -> Books
    requires { F.IsAlwaysCallable calls }
{
    let mut books = start;
    for _ in 0..count {
        books = calls(books);
    }
    books
}

// A begin and its giving up, so many times: two records each.
fn pairs(start: Books, count: u32, log: &mut [u8]) -> Books {
    repeated(start, count, |books| {
        let begun = books.begin(log);
        let live = begun.books;
        live.give_up(begun.given.unwrap_or(0), log).books
    })
}

// Posts, so many: one record each, and each holds a place.
fn posts(start: Books, count: u32, table: &mut [u8], log: &mut [u8]) -> Books {
    repeated(start, count, |books| {
        books.post(0, &[0; sizes::CELL_BYTES], table, log).books
    })
}

// A day of 31 posts and 1,984 pairs, closed: 3,999 records.
fn day(start: Books, table: &mut [u8], log: &mut [u8]) -> Books {
    let posted = posts(start, 31, table, log);
    let paired = pairs(posted, 1984, log);
    paired.close(log).books
}

// Records 3,998, none live: begin granted. 3,999, one live: read 7, commit goes on.
fn try_last_begin(rt: &HostRuntime, lent: &mut Lent) {
    let books = pairs(Books::open(), 1999, &mut lent.log);
    let begun = books.begin(&mut lent.log);
    say_state(rt, books, b"begin", begun.given);
    let after = begun.books;
    let handle = begun.given.unwrap_or(0);
    let read = after.read(handle, 0, &lent.table, &lent.drafts, &mut lent.log);
    say_state(rt, after, b"read", read.given);
    let ended = after.commit(handle, &mut lent.table, &lent.drafts, &mut lent.log);
    say_state(rt, after, b"commit", ended.given);
}

// Records 3,999, none live: begin 7, post granted.
fn try_last_post(rt: &HostRuntime, lent: &mut Lent) {
    let posted = posts(Books::open(), 1, &mut lent.table, &mut lent.log);
    let books = pairs(posted, 1999, &mut lent.log);
    let begun = books.begin(&mut lent.log);
    say_state(rt, books, b"begin", begun.given);
    let post = books.post(0, &[0; sizes::CELL_BYTES], &mut lent.table, &mut lent.log);
    say_state(rt, books, b"post", post.given);
}

// 32 held: begin 6. One gives up: next begin takes its place, turn one up.
fn try_full(rt: &HostRuntime, lent: &mut Lent) {
    let log = &mut lent.log;
    let books = repeated(
        Books::open(),
        sizes::PLACES as u32,
        |books| books.begin(log).books,
    );
    let begun = books.begin(&mut lent.log);
    say_state(rt, books, b"begin", begun.given);
    let freed = books.give_up(37, &mut lent.log);
    say_handle(rt, 37, b"giveup", freed.given);
    let after = freed.books;
    let again = after.begin(&mut lent.log);
    say_handle(rt, again.given.unwrap_or(0), b"begin", again.given);
}

// Handle 2,097,151 names place 31, turn 65,535; 2,097,152 is Stale. Turn 65,535: next is 0. Posts hold the places below 31, so that each begin
// takes that one: 33 days of 1,984 begins and 62 more bring it to turn 65,534.
fn try_last_turn(rt: &HostRuntime, lent: &mut Lent) {
    let table = &mut lent.table;
    let log = &mut lent.log;
    let closed = repeated(Books::open(), 33, |books| day(books, table, log));
    let posted = posts(closed, 31, &mut lent.table, &mut lent.log);
    let books = pairs(posted, 62, &mut lent.log);
    let begun = books.begin(&mut lent.log);
    say_handle(rt, begun.given.unwrap_or(0), b"begin", begun.given);
    let after = begun.books;
    let named = after.read(LAST, 0, &lent.table, &lent.drafts, &mut lent.log);
    say_handle(rt, LAST, b"read", named.given);
    let stale = after.read(sizes::HANDLES, 0, &lent.table, &lent.drafts, &mut lent.log);
    say_number(rt, b"handle ", sizes::HANDLES, b"read", stale.given);
    let freed = after.give_up(LAST, &mut lent.log);
    say_handle(rt, LAST, b"giveup", freed.given);
    let free = freed.books;
    let again = free.begin(&mut lent.log);
    say_handle(rt, again.given.unwrap_or(0), b"begin", again.given);
}

// Cell 32 or more: 5.
fn try_last_cell(rt: &HostRuntime, lent: &mut Lent) {
    let books = Books::open();
    for cell in [LAST_CELL, LAST_CELL + 1] {
        let posted = books.post(
            cell,
            &[0; sizes::CELL_BYTES],
            &mut lent.table,
            &mut lent.log,
        );
        say_number(rt, b"cell ", cell, b"post", posted.given);
    }
}

fn main(rt: HostRuntime) {
    let mut lent = Lent {
        table: [0; sizes::TABLE_BYTES],
        drafts: [0; sizes::DRAFTS_BYTES],
        log: [0; sizes::LOG_BYTES],
    };
    try_last_begin(&rt, &mut lent);
    try_last_post(&rt, &mut lent);
    try_full(&rt, &mut lent);
    try_last_turn(&rt, &mut lent);
    try_last_cell(&rt, &mut lent);
}
