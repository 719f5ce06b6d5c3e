// Read and write: the calls of a live transaction on a cell.
ghost use Rattle.std.specs.Prelude.{◌≡◌, [], length};
ghost use Rattle.rules.specs.Books.{books_at};
ghost use Rattle.rules.specs.State.{state_of, log_after};
ghost use Rattle.rules.specs.Steps.{write_rule, read_rule};
ghost use Rattle.effects.specs.Stepped.{in_numbers, step_of};

use effects::{Step, Transaction, record};
use log_bytes::bytes;
use place::handle;
use reasons::asked;
use rules::Controller;

// Write puts the value in the place's draft of the cell and marks the cell written.
pub fn write(
    at: Controller,
    handle: u32,
    cell: u32,
    value: &[u8],
    drafts: &mut [u8],
    log: &mut [u8],
) -> Step
    ensures step { in_numbers result ≡ step_of (write_rule at.entry.limits.size (length log.old) (state_of (books_at at.entry) [] drafts.old) handle cell value.now) }
    ensures drafts { drafts.new ≡ (write_rule at.entry.limits.size (length log.old) (state_of (books_at at.entry) [] drafts.old) handle cell value.now).after.drafts }
    ensures log { log.new ≡ log_after at.entry.records (write_rule at.entry.limits.size (length log.old) (state_of (books_at at.entry) [] drafts.old) handle cell value.now).entry log.old }
{
    match asked::of_write(at, handle, cell, value.len(), drafts.len(), log.len()) {
        Err(refusal) => record::refused(refusal, at),
        Ok(()) => {
            let transaction = Transaction {
                at,
                place: handle::place_of(handle),
            };
            transaction.write(cell as usize, bytes::value_of(value), drafts, log)
        }
    }
}

// Read judges a read of a cell that the transaction has not written, and records the value.
pub fn read(
    at: Controller,
    handle: u32,
    cell: u32,
    table: &[u8],
    drafts: &[u8],
    log: &mut [u8],
) -> Step
    ensures step { in_numbers result ≡ step_of (read_rule at.entry.limits.size (length log.old) (state_of (books_at at.entry) table.now drafts.now) handle cell) }
    ensures log { log.new ≡ log_after at.entry.records (read_rule at.entry.limits.size (length log.old) (state_of (books_at at.entry) table.now drafts.now) handle cell).entry log.old }
{
    match asked::of_read(at, handle, cell, table.len(), drafts.len(), log.len()) {
        Err(refusal) => record::refused(refusal, at),
        Ok(()) => {
            let transaction = Transaction {
                at,
                place: handle::place_of(handle),
            };
            transaction.read(cell as usize, table, drafts, log)
        }
    }
}
