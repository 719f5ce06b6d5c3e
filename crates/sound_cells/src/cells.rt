// What soundness asks of the cells of a place: none was touched, or the reads are in order.
// 32 cells are asked for by that number, so that a pass over them has a fixed length and is laid out without a loop.
ghost use Rattle.std.specs.Prelude.{◌≡◌, ◌≤◌, ◌&&◌, not, false, eqb, get_or};
ghost use Rattle.basics.specs.Below.{all_below};
ghost use Rattle.rules.specs.Sizes.{width};
ghost use Rattle.rules.specs.Sound.{cells_clear, read_sound, reads_sound};

use rules::sizes::WIDTH;
use rules::{Limits, Place};

// None of the first cells is written, and none was read. Each cell is looked at, with no branch, so that the pass is laid out in vector instructions.
#[tactic(auto, using(basics::proofs::Below::all_none, basics::proofs::Below::all_more))]
fn are_clear_below(p: &Place, cells: usize) -> bool
    requires { cells ≤ width }
    ensures { result ≡ all_below (λ c. not (get_or p.now.written c false) && (eqb (get_or p.now.first c 0) 0 && eqb (get_or p.now.last c 0) 0)) cells }
{
    let mut clear = true;
    for c in 0..cells {
        clear &= !p.written[c] & ((p.first[c] == 0) & (p.last[c] == 0));
    }
    clear
}

// No cell is written, and none was read.
#[tactic(auto, unfolding(rules::specs::Sound::cells_clear))]
pub fn are_cells_clear(p: &Place, z: Limits) -> bool
    ensures { result ≡ cells_clear z.size p.now.written p.now.first p.now.last }
{
    if z.size.cells == WIDTH {
        are_clear_below(p, WIDTH)
    } else {
        are_clear_below(p, z.size.cells)
    }
}

// First and last read of a cell: both 0, or begin ≤ first ≤ last ≤ records.
#[tactic(auto, unfolding(rules::specs::Sound::read_sound))]
fn is_read_sound(records: u16, begin: u16, first: u16, last: u16) -> bool
    ensures { result ≡ read_sound records begin first last }
{
    ((first == 0) & (last == 0)) | ((begin <= first) & ((first <= last) & (last <= records)))
}

// The reads of the first cells, with no branch either.
#[tactic(auto, using(basics::proofs::Below::all_none, basics::proofs::Below::all_more), unfolding(rules::specs::Sound::reads_sound))]
fn are_sound_below(p: &Place, records: u16, cells: usize) -> bool
    requires { cells ≤ width }
    ensures { result ≡ all_below (reads_sound records p.now) cells }
{
    let mut sound = true;
    for c in 0..cells {
        sound &= is_read_sound(records, p.begin, p.first[c], p.last[c]);
    }
    sound
}

// The reads of every cell.
pub fn are_reads_sound(p: &Place, records: u16, z: Limits) -> bool
    ensures { result ≡ all_below (reads_sound records p.now) z.size.cells }
{
    if z.size.cells == WIDTH {
        are_sound_below(p, records, WIDTH)
    } else {
        are_sound_below(p, records, z.size.cells)
    }
}
