// Show and order: the calls that only look.
ghost use Rattle.std.specs.Prelude.{◌≡◌, [], length};
ghost use Rattle.rules.specs.Books.{books_at};
ghost use Rattle.rules.specs.State.{state_of, buffer_after, shown_bytes, shown_at};
ghost use Rattle.rules.specs.Steps.{show_rule, order_rule};
ghost use Rattle.effects.specs.Stepped.{in_numbers, step_of};

use cells::cell::Draft;
use cells::shown;
use effects::{Step, record, whole_day};
use place::handle;
use reasons::asked;
use rules::Controller;
use rules::numbers::GRANTED;

// Show gives the eight bytes in the draft or in the table themselves, or an empty part at the table's front.
// A number: any that a read is said to have given has its answer (`show_rule`).
pub fn show<'a>(
    at: Controller,
    given: u8,
    handle: u32,
    cell: u32,
    drafts: &'a [u8],
    table: &'a [u8],
) -> &'a [u8]
    ensures contents { result.now ≡ shown_bytes drafts.now table.now (show_rule at.entry.limits.size (state_of (books_at at.entry) table.now drafts.now) given handle cell).shown }
    ensures place { result.ref_ptr ≡ shown_at drafts.entry.ref_ptr table.entry.ref_ptr (show_rule at.entry.limits.size (state_of (books_at at.entry) table.now drafts.now) given handle cell).shown }
{
    if asked::of_show(at, given, handle, cell, table.len(), drafts.len()) != GRANTED {
        return &table[0..0];
    }
    let i = handle::place_of(handle);
    let c = cell as usize;
    let draft = Draft {
        place: i,
        cell: c,
        limits: at.limits,
    };
    shown::chosen(drafts, table, at.places[i].written[c], draft)
}

// Order answers how many there are and puts them into the first numbers of the order buffer.
pub fn order(at: Controller, handle: u32, numbers: &mut [u16]) -> Step
    ensures step { in_numbers result ≡ step_of (order_rule at.entry.limits.size (length numbers.old) (state_of (books_at at.entry) [] []) handle) }
    ensures numbers { numbers.new ≡ buffer_after (order_rule at.entry.limits.size (length numbers.old) (state_of (books_at at.entry) [] []) handle).order numbers.old }
{
    match asked::of_order(at, handle, numbers.len()) {
        Err(refusal) => record::refused(refusal, at),
        Ok(()) => whole_day::order(at, handle::place_of(handle), numbers),
    }
}
