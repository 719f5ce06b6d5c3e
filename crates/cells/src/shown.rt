// What a reader is shown: the eight bytes in the drafts or in the table themselves, never a copy.
ghost use Rattle.std.specs.Prelude.{◌≡◌, cond, ◌+◌, ◌*◌, ◌≤◌, length};
ghost use Rattle.basics.specs.Bytes.{part};
ghost use Rattle.rules.specs.Sizes.{cell_bytes, table_bytes, drafts_bytes};
ghost use Rattle.rules.specs.State.{shown_bytes, shown_at, shown_draft, shown_cell};

use crate::cell;
use crate::cell::Draft;
use rules::sizes::CELL_BYTES;

// The eight bytes of a cell themselves.
#[tactic(auto, using(basics::proofs::Bytes::part_between))]
pub fn part_at<'a>(from: &'a [u8], cell: usize) -> &'a [u8]
    requires { cell_bytes * cell + cell_bytes ≤ length from.now }
    ensures contents { result.now ≡ part (cell_bytes * cell) cell_bytes from.now }
    ensures place { result.ref_ptr ≡ (from.entry.ref_ptr.0, cell_bytes * cell + from.entry.ref_ptr.1) }
{
    let front = CELL_BYTES * cell;
    &from[front..front + CELL_BYTES]
}

// The draft if its cell is written there, else the table's cell.
#[tactic(auto, using(crate::proofs::Room::draft_inside), unfolding(rules::specs::State::shown_bytes, rules::specs::State::shown_at))]
pub fn chosen<'a>(drafts: &'a [u8], table: &'a [u8], written: bool, draft: Draft) -> &'a [u8]
    requires table_len { (length table.now ≡ table_bytes draft.limits.size) × (length drafts.now ≡ drafts_bytes draft.limits.size) }
    ensures contents { result.now ≡ shown_bytes drafts.now table.now (cond written (shown_draft draft.limits.size draft.place draft.cell) (shown_cell draft.cell)) }
    ensures place { result.ref_ptr ≡ shown_at drafts.entry.ref_ptr table.entry.ref_ptr (cond written (shown_draft draft.limits.size draft.place draft.cell) (shown_cell draft.cell)) }
{
    if written {
        return part_at(drafts, cell::draft_cell(draft));
    }
    part_at(table, draft.cell)
}
