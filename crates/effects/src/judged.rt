// The judged calls: a read of a cell that the transaction has not written, and commit. Each is weighed with itself counted as granted.
ghost use Rattle.std.specs.Prelude.{◌≡◌, [], ◌<◌, length};
ghost use Rattle.rules.specs.Sizes.{log_bytes, table_bytes, drafts_bytes};
ghost use Rattle.rules.specs.Books.{books_at};
ghost use Rattle.rules.specs.State.{state_of, log_after};
ghost use Rattle.rules.specs.Steps.{judged_read_of, read_of, judged_commit_of};
ghost use Rattle.effects.specs.Stepped.{in_numbers, step_of};

use crate::{Step, Transaction, held, record};
use cells::{cell, lay};
use judge::verdict;
use place::change;
use rules::kinds::RecordKind;
use rules::sizes::CELL_BYTES;

impl Transaction<'_> {
    // A read of any other cell: granted, the table's value is recorded and the read marked.
    fn judged_read(self, c: usize, table: &[u8], log: &mut [u8]) -> Step
        requires cell_there { c < self.at.limits.size.cells }
        requires log_len { length log.old ≡ log_bytes }
        requires table_len { length table.now ≡ table_bytes self.at.limits.size }
        ensures step { in_numbers result ≡ step_of (judged_read_of self.entry.at.limits.size (state_of (books_at self.entry.at) table.now []) self.entry.place c) }
        ensures log { log.new ≡ log_after self.entry.at.records (judged_read_of self.entry.at.limits.size (state_of (books_at self.entry.at) table.now []) self.entry.place c).entry log.old }
    {
        let at = self.at;
        let i = self.place;
        let p = at.places[i];
        let read = record::changed(Ok(0), at, i, change::mark_read(p, c, at.records + 1));
        if verdict::is_conflict(&read.places, i, at.limits) {
            return held::turn_back(at, RecordKind::ReadConflict.number(), i, c, log);
        }
        let value = cell::value_at(table, c);
        record::add(
            log,
            at.records,
            RecordKind::JudgedRead.number(),
            i,
            p,
            c,
            value,
        );
        read
    }

    // Read of a cell the transaction has written is not judged; any other is.
    pub fn read(self, c: usize, table: &[u8], drafts: &[u8], log: &mut [u8]) -> Step
        requires cell_there { c < self.at.limits.size.cells }
        requires log_len { length log.old ≡ log_bytes }
        requires table_len { (length table.now ≡ table_bytes self.at.limits.size) × (length drafts.now ≡ drafts_bytes self.at.limits.size) }
        ensures step { in_numbers result ≡ step_of (read_of self.entry.at.limits.size (state_of (books_at self.entry.at) table.now drafts.now) self.entry.place c) }
        ensures log { log.new ≡ log_after self.entry.at.records (read_of self.entry.at.limits.size (state_of (books_at self.entry.at) table.now drafts.now) self.entry.place c).entry log.old }
    {
        if self.at.places[self.place].written[c] {
            self.own_read(c, drafts, log)
        } else {
            self.judged_read(c, table, log)
        }
    }

    // Commit, weighed as if granted. Granted, the written cells' drafts go into the table and the place becomes committed.
    pub fn commit(self, table: &mut [u8], drafts: &[u8], log: &mut [u8]) -> Step
        requires log_len { length log.old ≡ log_bytes }
        requires table_len { (length table.old ≡ table_bytes self.at.limits.size) × (length drafts.now ≡ drafts_bytes self.at.limits.size) }
        ensures step { in_numbers result ≡ step_of (judged_commit_of self.entry.at.limits.size (state_of (books_at self.entry.at) table.old drafts.now) self.entry.place) }
        ensures table { table.new ≡ (judged_commit_of self.entry.at.limits.size (state_of (books_at self.entry.at) table.old drafts.now) self.entry.place).after.table }
        ensures log { log.new ≡ log_after self.entry.at.records (judged_commit_of self.entry.at.limits.size (state_of (books_at self.entry.at) table.old drafts.now) self.entry.place).entry log.old }
    {
        let at = self.at;
        let i = self.place;
        let p = at.places[i];
        let committed = record::changed(Ok(0), at, i, change::commit(p, at.records + 1));
        if verdict::is_conflict(&committed.places, i, at.limits) {
            return held::turn_back(at, RecordKind::CommitConflict.number(), i, 0, log);
        }
        lay::lay(table, drafts, p.written, i, at.limits);
        record::add(
            log,
            at.records,
            RecordKind::Commit.number(),
            i,
            p,
            0,
            [0; CELL_BYTES],
        );
        committed
    }
}
