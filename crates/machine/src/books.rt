// The books as a value: the record count and the places, and the calls on them, one method per step rule.
ghost use Rattle.std.specs.Prelude.{◌≡◌};
ghost use Rattle.rules.specs.Sizes.{yard};
ghost use Rattle.rules.specs.Books.{opened};
ghost use Rattle.rules.specs.Sound.{sound};
ghost use Rattle.rules.specs.State.{log_after, buffer_after, shown_bytes, shown_at};
ghost use Rattle.machine.specs.View.{view, books_back, in_numbers, answer_of, answer_of_step};
ghost use Rattle.machine.specs.Promises.{begin_outcome, write_outcome, read_outcome, show_outcome, commit_outcome, give_up_outcome, post_outcome, order_outcome, close_outcome};

use effects::Step;
use place::change;
use rules::numbers::GRANTED;
use rules::refusal::Refusal;
use rules::{Controller, Place, sizes};
use sound::whole;
use steps::{ending, looking, reading, taking};

// Status is 0 free, 1 live, 2 committed; a record number of 0 means none.
#[derive(Clone, Copy)]
pub struct Books {
    pub records: u16,
    pub places: [Place; 32],
}

// What a call answers, and the new books: it gives the handle of a begin or post, the count of an order, else 0, or why it is refused.
#[derive(Clone, Copy)]
pub struct Answer {
    pub given: Result<u32, Refusal>,
    pub books: Books,
}

// An answer in document 01's numbers: its number, the handle or count (else 0), and the new books.
// A number: a call by value answers so, and a show by value may be given any (`call_outcome`).
#[derive(Clone, Copy)]
pub struct Told {
    pub number: u8,
    pub answer: u32,
    pub books: Books,
}

impl From<Answer> for Told {
    ghost from_gives = { λ answer numbers. numbers ≡ in_numbers answer };

    fn from(answer: Answer) -> Told {
        let books = answer.books;
        match answer.given {
            Ok(answer) => Told {
                number: GRANTED,
                answer,
                books,
            },
            Err(refusal) => Told {
                number: refusal.number(),
                answer: 0,
                books,
            },
        }
    }
}

impl Books {
    // The controller of document 01 with these books.
    pub(crate) fn controller(&self) -> Controller<'_>
        ensures records { result.records ≡ self.now.records }
        ensures places { result.places.now ≡ self.now.places }
        ensures size { result.limits.size ≡ yard }
    {
        Controller {
            records: self.records,
            places: &self.places,
            limits: sizes::yard_limits(),
        }
    }

    // Whether the books are sound.
    pub fn is_sound(self) -> bool
        ensures { result ≡ sound yard (view self) }
    {
        whole::are_sound(self.controller())
    }

    // Open gives books with every place free, turns 0, no records.
    #[tactic(auto, unfolding(rules::specs::Books::opened, rules::specs::Books::freed))]
    pub fn open() -> Books
        ensures { result ≡ books_back opened }
    {
        let free = change::cleared(0);
        Books {
            records: 0,
            places: [free; 32],
        }
    }

    // The new books, and the answer that hands them back.
    fn handed(mut self, step: Step) -> Answer
        ensures { result ≡ answer_of_step step }
    {
        let places = step.places;
        self.places = places;
        self.records = step.records;
        Answer {
            given: step.given,
            books: self,
        }
    }

    // Begin takes the lowest free place and answers the handle.
    pub fn begin(self, log: &mut [u8]) -> Answer
        ensures answer { in_numbers result ≡ answer_of (begin_outcome self log.old) }
        ensures log { log.new ≡ log_after self.records (begin_outcome self log.old).entry log.old }
    {
        self.handed(taking::begin(self.controller(), log))
    }

    // Write puts 8 bytes in the place's draft of that cell and marks the cell written.
    pub fn write(
        self,
        handle: u32,
        cell: u32,
        value: &[u8],
        drafts: &mut [u8],
        log: &mut [u8],
    ) -> Answer
        ensures answer { in_numbers result ≡ answer_of (write_outcome self handle cell value.now drafts.old log.old) }
        ensures drafts { drafts.new ≡ (write_outcome self handle cell value.now drafts.old log.old).after.drafts }
        ensures log { log.new ≡ log_after self.records (write_outcome self handle cell value.now drafts.old log.old).entry log.old }
    {
        self.handed(reading::write(self.controller(), handle, cell, value, drafts, log))
    }

    // Read judges a read of a cell that the transaction has not written, and records the value.
    pub fn read(self, handle: u32, cell: u32, table: &[u8], drafts: &[u8], log: &mut [u8]) -> Answer
        ensures answer { in_numbers result ≡ answer_of (read_outcome self handle cell table.now drafts.now log.old) }
        ensures log { log.new ≡ log_after self.records (read_outcome self handle cell table.now drafts.now log.old).entry log.old }
    {
        self.handed(reading::read(self.controller(), handle, cell, table, drafts, log))
    }

    // Show takes the books and the number that a read gave, and shows the eight bytes in the draft or in the table themselves.
    // A number: any that is given has its answer (`show_outcome`).
    pub fn show<'a>(
        self,
        given: u8,
        handle: u32,
        cell: u32,
        drafts: &'a [u8],
        table: &'a [u8],
    ) -> &'a [u8]
        ensures contents { result.now ≡ shown_bytes drafts.now table.now (show_outcome self given handle cell drafts.now table.now).shown }
        ensures place { result.ref_ptr ≡ shown_at drafts.entry.ref_ptr table.entry.ref_ptr (show_outcome self given handle cell drafts.now table.now).shown }
    {
        looking::show(self.controller(), given, handle, cell, drafts, table)
    }

    // Commit is judged as if granted; granted, the written cells' drafts go into the table and the place becomes committed.
    pub fn commit(self, handle: u32, table: &mut [u8], drafts: &[u8], log: &mut [u8]) -> Answer
        ensures answer { in_numbers result ≡ answer_of (commit_outcome self handle table.old drafts.now log.old) }
        ensures table { table.new ≡ (commit_outcome self handle table.old drafts.now log.old).after.table }
        ensures log { log.new ≡ log_after self.records (commit_outcome self handle table.old drafts.now log.old).entry log.old }
    {
        self.handed(ending::commit(self.controller(), handle, table, drafts, log))
    }

    // Give up frees the place.
    pub fn give_up(self, handle: u32, log: &mut [u8]) -> Answer
        ensures answer { in_numbers result ≡ answer_of (give_up_outcome self handle log.old) }
        ensures log { log.new ≡ log_after self.records (give_up_outcome self handle log.old).entry log.old }
    {
        self.handed(ending::give_up(self.controller(), handle, log))
    }

    // Post is begin, write and commit in one record; it writes the table and answers the handle.
    pub fn post(self, cell: u32, value: &[u8], table: &mut [u8], log: &mut [u8]) -> Answer
        ensures answer { in_numbers result ≡ answer_of (post_outcome self cell value.now table.old log.old) }
        ensures table { table.new ≡ (post_outcome self cell value.now table.old log.old).after.table }
        ensures log { log.new ≡ log_after self.records (post_outcome self cell value.now table.old log.old).entry log.old }
    {
        self.handed(taking::post(self.controller(), cell, value, table, log))
    }

    // Order answers a count and puts the transaction's order into the first numbers of the order buffer, as begin records.
    pub fn order(self, handle: u32, numbers: &mut [u16]) -> Answer
        ensures answer { in_numbers result ≡ answer_of (order_outcome self handle numbers.old) }
        ensures numbers { numbers.new ≡ buffer_after (order_outcome self handle numbers.old).order numbers.old }
    {
        self.handed(looking::order(self.controller(), handle, numbers))
    }

    // Close writes the trailer just after the last record, frees every place, keeps turns, sets records to 0.
    pub fn close(self, log: &mut [u8]) -> Answer
        ensures answer { in_numbers result ≡ answer_of (close_outcome self log.old) }
        ensures log { log.new ≡ log_after self.records (close_outcome self log.old).entry log.old }
    {
        self.handed(ending::close(self.controller(), log))
    }
}
