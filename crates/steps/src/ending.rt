// Commit and give up, which end a transaction, and close, which ends the day.
ghost use Rattle.std.specs.Prelude.{◌≡◌, [], length};
ghost use Rattle.rules.specs.Books.{books_at};
ghost use Rattle.rules.specs.Daylog.{commits_in};
ghost use Rattle.rules.specs.State.{state_of, log_after};
ghost use Rattle.rules.specs.Steps.{commit_rule, give_up_rule, close_rule};
ghost use Rattle.effects.specs.Stepped.{in_numbers, step_of};

use effects::{Step, Transaction, record, whole_day};
use place::handle;
use reasons::asked;
use rules::Controller;

// Commit is judged as if granted; granted, the written cells' drafts go into the table.
pub fn commit(at: Controller, handle: u32, table: &mut [u8], drafts: &[u8], log: &mut [u8]) -> Step
    ensures step { in_numbers result ≡ step_of (commit_rule at.entry.limits.size (length log.old) (state_of (books_at at.entry) table.old drafts.now) handle) }
    ensures table { table.new ≡ (commit_rule at.entry.limits.size (length log.old) (state_of (books_at at.entry) table.old drafts.now) handle).after.table }
    ensures log { log.new ≡ log_after at.entry.records (commit_rule at.entry.limits.size (length log.old) (state_of (books_at at.entry) table.old drafts.now) handle).entry log.old }
{
    match asked::of_commit(at, handle, table.len(), drafts.len(), log.len()) {
        Err(refusal) => record::refused(refusal, at),
        Ok(()) => {
            let transaction = Transaction {
                at,
                place: handle::place_of(handle),
            };
            transaction.commit(table, drafts, log)
        }
    }
}

// Give up frees the place.
pub fn give_up(at: Controller, handle: u32, log: &mut [u8]) -> Step
    ensures step { in_numbers result ≡ step_of (give_up_rule at.entry.limits.size (length log.old) (state_of (books_at at.entry) [] []) handle) }
    ensures log { log.new ≡ log_after at.entry.records (give_up_rule at.entry.limits.size (length log.old) (state_of (books_at at.entry) [] []) handle).entry log.old }
{
    match asked::of_give_up(at, handle, log.len()) {
        Err(refusal) => record::refused(refusal, at),
        Ok(()) => {
            let transaction = Transaction {
                at,
                place: handle::place_of(handle),
            };
            transaction.give_up(log)
        }
    }
}

// Close writes the trailer, frees every place and sets records to 0.
pub fn close(at: Controller, log: &mut [u8]) -> Step
    ensures step { in_numbers result ≡ step_of (close_rule at.entry.limits.size (length log.old) (commits_in log.old at.entry.records) (state_of (books_at at.entry) [] [])) }
    ensures log { log.new ≡ log_after at.entry.records (close_rule at.entry.limits.size (length log.old) (commits_in log.old at.entry.records) (state_of (books_at at.entry) [] [])).entry log.old }
{
    match asked::of_close(at, log.len()) {
        Err(refusal) => record::refused(refusal, at),
        Ok(()) => whole_day::close(at, log),
    }
}
