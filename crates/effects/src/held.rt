// The calls of a live transaction that are not judged: write, give up, a read of a written cell; and Conflict, which ends one.
ghost use Rattle.std.specs.Prelude.{◌≡◌, [], ◌<◌, length};
ghost use Rattle.rules.specs.Sizes.{width, most_records, log_bytes, drafts_bytes};
ghost use Rattle.rules.specs.Books.{books_at};
ghost use Rattle.rules.specs.State.{state_of, log_after};
ghost use Rattle.rules.specs.Judged.{turned_back};
ghost use Rattle.rules.specs.Steps.{write_of, own_read_of, give_up_of};
ghost use Rattle.effects.specs.Stepped.{in_numbers, step_of};

use crate::{Step, StepOf, Transaction, record};
use cells::cell;
use cells::cell::Draft;
use place::change;
use rules::Controller;
use rules::kinds::RecordKind;
use rules::refusal::Refusal;
use rules::sizes::CELL_BYTES;

// Conflict frees the place, with a record of its kind. It asks for less than a `Transaction` has: the widths alone. The kind is a number, as `record::add` takes it.
pub fn turn_back(at: Controller, kind: u8, i: usize, c: usize, log: &mut [u8]) -> Step
    requires i_lt_width { (i < width) × (c < width) }
    requires records_lt_most_records { (at.records < most_records) × (length log.old ≡ log_bytes) }
    ensures step { in_numbers result ≡ step_of (turned_back (state_of (books_at at.entry) [] []) kind i c) }
    ensures log { log.new ≡ log_after at.entry.records (turned_back (state_of (books_at at.entry) [] []) kind i c).entry log.old }
{
    let p = at.places[i];
    record::add(log, at.records, kind, i, p, c, [0; CELL_BYTES]);
    record::changed(Err(Refusal::Conflict), at, i, change::free(p))
}

impl Transaction<'_> {
    // Write puts the value in the place's draft of the cell and marks the cell written.
    pub fn write(self, c: usize, value: [u8; 8], drafts: &mut [u8], log: &mut [u8]) -> Step
        requires cell_there { c < self.at.limits.size.cells }
        requires log_len { length log.old ≡ log_bytes }
        requires drafts_len { length drafts.old ≡ drafts_bytes self.at.limits.size }
        ensures step { in_numbers result ≡ step_of (write_of self.entry.at.limits.size (state_of (books_at self.entry.at) [] drafts.old) self.entry.place c value) }
        ensures drafts { drafts.new ≡ (write_of self.entry.at.limits.size (state_of (books_at self.entry.at) [] drafts.old) self.entry.place c value).after.drafts }
        ensures log { log.new ≡ log_after self.entry.at.records (write_of self.entry.at.limits.size (state_of (books_at self.entry.at) [] drafts.old) self.entry.place c value).entry log.old }
    {
        let at = self.at;
        let i = self.place;
        let p = at.places[i];
        let draft = Draft {
            place: i,
            cell: c,
            limits: at.limits,
        };
        cell::put_draft_at(drafts, draft, value);
        record::add(log, at.records, RecordKind::Write.number(), i, p, c, value);
        record::changed(Ok(0), at, i, change::mark(p, c))
    }

    // Give up frees the place.
    pub fn give_up(self, log: &mut [u8]) -> Step
        requires log_len { length log.old ≡ log_bytes }
        ensures step { in_numbers result ≡ step_of (give_up_of self.entry.at.limits.size (state_of (books_at self.entry.at) [] []) self.entry.place) }
        ensures log { log.new ≡ log_after self.entry.at.records (give_up_of self.entry.at.limits.size (state_of (books_at self.entry.at) [] []) self.entry.place).entry log.old }
    {
        let at = self.at;
        let i = self.place;
        let p = at.places[i];
        record::add(
            log,
            at.records,
            RecordKind::GiveUp.number(),
            i,
            p,
            0,
            [0; CELL_BYTES],
        );
        record::changed(Ok(0), at, i, change::free(p))
    }

    // A read of a written cell: its draft is recorded, and no place changes.
    pub fn own_read(self, c: usize, drafts: &[u8], log: &mut [u8]) -> Step
        requires cell_there { c < self.at.limits.size.cells }
        requires log_len { length log.old ≡ log_bytes }
        requires drafts_len { length drafts.now ≡ drafts_bytes self.at.limits.size }
        ensures step { in_numbers result ≡ step_of (own_read_of self.entry.at.limits.size (state_of (books_at self.entry.at) [] drafts.now) self.entry.place c) }
        ensures log { log.new ≡ log_after self.entry.at.records (own_read_of self.entry.at.limits.size (state_of (books_at self.entry.at) [] drafts.now) self.entry.place c).entry log.old }
    {
        let at = self.at;
        let i = self.place;
        let draft = Draft {
            place: i,
            cell: c,
            limits: at.limits,
        };
        record::add(
            log,
            at.records,
            RecordKind::OwnRead.number(),
            i,
            at.places[i],
            c,
            cell::draft_at(drafts, draft),
        );
        StepOf {
            given: Ok(0),
            records: at.records + 1,
            places: *at.places,
        }
    }
}
