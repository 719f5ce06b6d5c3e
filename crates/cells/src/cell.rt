// A cell of 8 bytes in the table, and a place's draft of a cell in the drafts.
// Table and drafts are lent as bytes, and the promises name the lent slices: so their lengths are asked for by clauses, and by no type.
ghost use Rattle.std.specs.Prelude.{◌≡◌, ◌+◌, ◌*◌, ◌<◌, ◌≤◌, length};
ghost use Rattle.rules.specs.Sizes.{cell_bytes, drafts_bytes};
ghost use Rattle.rules.specs.Cells.{cell_of, with_cell, draft_cell, draft_of, with_draft};

use crate::shown;
use log_bytes::bytes;
use rules::Limits;
use rules::sizes::CELL_BYTES;

// Which draft it is: that of a cell at a place.
#[derive(Clone, Copy)]
pub struct Draft {
    pub place: usize,
    pub cell: usize,
    pub limits: Limits,
    ghost place_there: { place < limits.size.places },
    ghost cell_there: { cell < limits.size.cells },
}

// The value in a cell.
#[tactic(auto, using(basics::proofs::Bytes::part_length), unfolding(rules::specs::Cells::cell_of))]
pub fn value_at(from: &[u8], cell: usize) -> [u8; 8]
    requires { cell_bytes * cell + cell_bytes ≤ length from.now }
    ensures { result ≡ cell_of from.now cell }
{
    bytes::value_of(shown::part_at(from, cell))
}

// A value into a cell; all other bytes stay.
#[tactic(auto, using(crate::proofs::Written::cell_written))]
pub fn put_value_at(into: &mut [u8], cell: usize, value: [u8; 8])
    requires { cell_bytes * cell + cell_bytes ≤ length into.old }
    ensures { into.new ≡ with_cell cell value into.old }
{
    let front = CELL_BYTES * cell;
    into[front..front + CELL_BYTES].copy_from_slice(&value);
}

// Where a draft stands in the drafts, counted in cells: place by place, as document 01 lays the lent bytes out.
pub fn draft_cell(draft: Draft) -> usize
    ensures { result ≡ draft_cell draft.limits.size draft.place draft.cell }
{
    draft.place * draft.limits.size.cells + draft.cell
}

// The value in a draft.
#[tactic(auto, using(crate::proofs::Room::draft_inside), unfolding(rules::specs::Cells::draft_of))]
pub fn draft_at(drafts: &[u8], draft: Draft) -> [u8; 8]
    requires { length drafts.now ≡ drafts_bytes draft.limits.size }
    ensures { result ≡ draft_of draft.limits.size drafts.now draft.place draft.cell }
{
    value_at(drafts, draft_cell(draft))
}

// A value into a draft; all other bytes stay.
#[tactic(auto, using(crate::proofs::Room::draft_inside), unfolding(rules::specs::Cells::with_draft))]
pub fn put_draft_at(drafts: &mut [u8], draft: Draft, value: [u8; 8])
    requires { length drafts.old ≡ drafts_bytes draft.limits.size }
    ensures { drafts.new ≡ with_draft draft.limits.size draft.place draft.cell value drafts.old }
{
    put_value_at(drafts, draft_cell(draft), value);
}
