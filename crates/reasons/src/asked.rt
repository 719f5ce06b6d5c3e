// What is asked of each call, in the order of the numbers. `value`, `table`, `drafts`, `log` and `numbers` are the lengths of what is lent.
// Each is compiled as a call of its own: what a call does then stands alone, and its books need no room that is set to zero first.
ghost use Rattle.std.specs.Prelude.{◌≡◌};
ghost use Rattle.rules.specs.Books.{books_at};
ghost use Rattle.rules.specs.Numbers.{granted, first_reason};
ghost use Rattle.rules.specs.Refusals.{said};
ghost use Rattle.rules.specs.Steps.{begin_reasons, write_reasons, read_reasons, show_reasons, commit_reasons, give_up_reasons, post_reasons, order_reasons, close_reasons};

use crate::shared;
use crate::shared::refuse_if;
use judge::verdict;
use place::handle;
use rules::numbers::GRANTED;
use rules::refusal::Refusal;
use rules::refusal::Refusal::{Busy, Unsound};
use rules::sizes::{CELL_BYTES, LOG_BYTES};
use rules::{Caller, Controller, refusal};
use survey::search;

// Begin: 1, 2, 6, 7.
#[inline(never)]
pub fn of_begin(at: Controller, log: usize) -> Result<(), Refusal>
    ensures { said result ≡ first_reason (begin_reasons at.entry.limits.size log (books_at at.entry)) }
{
    shared::of_lengths([log], [LOG_BYTES])?;
    shared::of_books(at)?;
    shared::of_free(at, search::live_count_of(at.places, at.limits) + 1)
}

// Write: 1, 2, 3, 4, 5, 7.
#[inline(never)]
pub fn of_write(
    at: Controller,
    handle: u32,
    cell: u32,
    value: usize,
    drafts: usize,
    log: usize,
) -> Result<(), Refusal>
    ensures { said result ≡ first_reason (write_reasons at.entry.limits.size value drafts log (books_at at.entry) handle cell) }
{
    let wanted = [CELL_BYTES, shared::drafts_bytes(at.limits), LOG_BYTES];
    shared::of_lengths([value, drafts, log], wanted)?;
    shared::of_access(at, Caller::Writes, handle, cell)
}

// Read: 1, 2, 3, 4, 5, 7.
#[inline(never)]
pub fn of_read(
    at: Controller,
    handle: u32,
    cell: u32,
    table: usize,
    drafts: usize,
    log: usize,
) -> Result<(), Refusal>
    ensures { said result ≡ first_reason (read_reasons at.entry.limits.size table drafts log (books_at at.entry) handle cell) }
{
    let wanted = [
        shared::table_bytes(at.limits),
        shared::drafts_bytes(at.limits),
        LOG_BYTES,
    ];
    shared::of_lengths([table, drafts, log], wanted)?;
    shared::of_access(at, Caller::Reads, handle, cell)
}

// What a read would meet of 1, 2, 3, 4, 5.
fn of_look(
    at: Controller,
    handle: u32,
    cell: u32,
    table: usize,
    drafts: usize,
) -> Result<(), Refusal>
    ensures { said result ≡ first_reason (show_reasons at.entry.limits.size table drafts (books_at at.entry) granted handle cell) }
{
    let wanted = [
        shared::table_bytes(at.limits),
        shared::drafts_bytes(at.limits),
    ];
    shared::of_lengths([table, drafts], wanted)?;
    shared::of_handle_and_cell(at, Caller::Reads, handle, cell)
}

// Show: the read's own number, then 1, 2, 3, 4, 5.
// A number: the read's own may be any, also one that document 01 does not name.
#[inline(never)]
pub fn of_show(at: Controller, given: u8, handle: u32, cell: u32, table: usize, drafts: usize) -> u8
    ensures { result ≡ first_reason (show_reasons at.entry.limits.size table drafts (books_at at.entry) given handle cell) }
{
    if given != GRANTED {
        return given;
    }
    refusal::said(of_look(at, handle, cell, table, drafts))
}

// Commit: 1, 2, 3, 4.
#[inline(never)]
pub fn of_commit(
    at: Controller,
    handle: u32,
    table: usize,
    drafts: usize,
    log: usize,
) -> Result<(), Refusal>
    ensures { said result ≡ first_reason (commit_reasons at.entry.limits.size table drafts log (books_at at.entry) handle) }
{
    let wanted = [
        shared::table_bytes(at.limits),
        shared::drafts_bytes(at.limits),
        LOG_BYTES,
    ];
    shared::of_lengths([table, drafts, log], wanted)?;
    shared::of_handle(at, Caller::Commits, handle)
}

// Give up: 1, 2, 3, 4.
#[inline(never)]
pub fn of_give_up(at: Controller, handle: u32, log: usize) -> Result<(), Refusal>
    ensures { said result ≡ first_reason (give_up_reasons at.entry.limits.size log (books_at at.entry) handle) }
{
    shared::of_lengths([log], [LOG_BYTES])?;
    shared::of_handle(at, Caller::GivesUp, handle)
}

// Post: 1, 2, 5, 6, 7.
#[inline(never)]
pub fn of_post(
    at: Controller,
    cell: u32,
    value: usize,
    table: usize,
    log: usize,
) -> Result<(), Refusal>
    ensures { said result ≡ first_reason (post_reasons at.entry.limits.size value table log (books_at at.entry) cell) }
{
    let wanted = [CELL_BYTES, shared::table_bytes(at.limits), LOG_BYTES];
    shared::of_lengths([value, table, log], wanted)?;
    shared::of_books(at)?;
    shared::of_cell(cell, at.limits)?;
    shared::of_free(at, search::live_count_of(at.places, at.limits))
}

// Order: 1, 2, 3, then 2 for a cycle in the company.
#[inline(never)]
pub fn of_order(at: Controller, handle: u32, numbers: usize) -> Result<(), Refusal>
    ensures { said result ≡ first_reason (order_reasons at.entry.limits.size numbers (books_at at.entry) handle) }
{
    shared::of_lengths([numbers], [at.limits.size.places])?;
    shared::of_handle(at, Caller::Orders, handle)?;
    let cycle = verdict::is_conflict(at.places, handle::place_of(handle), at.limits);
    refuse_if(cycle, Unsound)
}

// Close: 1, 2, 8.
#[inline(never)]
pub fn of_close(at: Controller, log: usize) -> Result<(), Refusal>
    ensures { said result ≡ first_reason (close_reasons at.entry.limits.size log (books_at at.entry)) }
{
    shared::of_lengths([log], [LOG_BYTES])?;
    shared::of_books(at)?;
    refuse_if(search::live_count_of(at.places, at.limits) != 0, Busy)
}
