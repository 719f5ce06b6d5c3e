// Reasons that several calls share.
ghost use Rattle.std.specs.Prelude.{◌≡◌, [], ◌∷◌, ◌++◌, ◌+◌};
ghost use Rattle.rules.specs.Sizes.{table_bytes, drafts_bytes};
ghost use Rattle.rules.specs.Books.{books_at, no_free, live_count};
ghost use Rattle.rules.specs.Numbers.{lent, full, ◌if◌, first_reason};
ghost use Rattle.rules.specs.Refusals.{number_of, said};
ghost use Rattle.reasons.specs.Lengths.{any_wrong};
ghost use Rattle.rules.specs.Steps.{soundness_reason, handle_reasons, handle_cell_reasons, cell_reason, room_reason};

use place::{gate, handle};
use rules::refusal::Refusal;
use rules::refusal::Refusal::{Full, Lent, LogFull, NoCell, Unsound};
use rules::sizes::{CELL_BYTES, MOST_RECORDS};
use rules::{Caller, Controller, Limits};
use sound::whole;
use survey::search;

// The table's length in bytes.
pub fn table_bytes(z: Limits) -> usize
    ensures { result ≡ table_bytes z.size }
{
    CELL_BYTES * z.size.cells
}

// The drafts' length in bytes.
pub fn drafts_bytes(z: Limits) -> usize
    ensures { result ≡ drafts_bytes z.size }
{
    CELL_BYTES * (z.size.places * z.size.cells)
}

// One reason: `why` where it applies.
pub fn refuse_if(applies: bool, why: Refusal) -> Result<(), Refusal>
    ensures { said result ≡ first_reason ((number_of why if applies) ∷ []) }
{
    if applies { Err(why) } else { Ok(()) }
}

// 1: the lengths of what is lent, and those that are wanted.
pub fn of_lengths<const N: usize>(lengths: [usize; N], wanted: [usize; N]) -> Result<(), Refusal>
    ensures { said result ≡ first_reason ((lent if any_wrong lengths.entry wanted.entry) ∷ []) }
{
    refuse_if(lengths != wanted, Lent)
}

// 2: the books.
pub fn of_books(at: Controller) -> Result<(), Refusal>
    ensures { said result ≡ first_reason (soundness_reason at.entry.limits.size (books_at at.entry) ∷ []) }
{
    refuse_if(!whole::are_sound(at), Unsound)
}

// 2, 3 and 4: the books and the handle, for each of the five calls that take one.
pub fn of_handle(at: Controller, call: Caller, handle: u32) -> Result<(), Refusal>
    ensures { said result ≡ first_reason (soundness_reason at.entry.limits.size (books_at at.entry) ∷ handle_reasons at.entry.limits.size call (books_at at.entry) handle) }
{
    of_books(at)?;
    gate::lookup(
        at.places[handle::place_of(handle)],
        at.limits.size,
        call,
        handle,
    )
}

// 5: the cell.
pub fn of_cell(cell: u32, z: Limits) -> Result<(), Refusal>
    ensures { said result ≡ first_reason (cell_reason z.size cell ∷ []) }
{
    refuse_if(z.size.cells <= cell as usize, NoCell)
}

// 2 to 5: the books, the handle and the cell of a read, write or show.
pub fn of_handle_and_cell(
    at: Controller,
    call: Caller,
    handle: u32,
    cell: u32,
) -> Result<(), Refusal>
    ensures { said result ≡ first_reason (handle_cell_reasons at.entry.limits.size call (books_at at.entry) handle cell) }
{
    of_handle(at, call, handle)?;
    of_cell(cell, at.limits)
}

// 7: so many records after the call and live ones after it pass 4,000.
pub fn of_room(records: u32, live: u32) -> Result<(), Refusal>
    ensures { said result ≡ first_reason (room_reason records live ∷ []) }
{
    refuse_if(MOST_RECORDS < records as usize + live as usize, LogFull)
}

// 6 and 7: a free place, and room in the log for one record more and so many live ones after the call.
pub fn of_free(at: Controller, live: u32) -> Result<(), Refusal>
    ensures { said result ≡ first_reason ((full if no_free at.entry.limits.size (books_at at.entry)) ∷ room_reason (at.entry.records + 1) live ∷ []) }
{
    search::lowest_free_of(at.places, at.limits).ok_or(Full)?;
    of_room(at.records as u32 + 1, live)
}

// 2 to 5 and 7: the books, the handle, the cell and the log's room of a read or write.
pub fn of_access(at: Controller, call: Caller, handle: u32, cell: u32) -> Result<(), Refusal>
    ensures { said result ≡ first_reason (handle_cell_reasons at.entry.limits.size call (books_at at.entry) handle cell ++ (room_reason (at.entry.records + 1) (live_count at.entry.limits.size (books_at at.entry)) ∷ [])) }
{
    of_handle_and_cell(at, call, handle, cell)?;
    of_room(
        at.records as u32 + 1,
        search::live_count_of(at.places, at.limits),
    )
}
