// How a place changes. Each takes the place by value and hands the changed one back; document 01's definition of the change is its promise.
ghost use Rattle.std.specs.Prelude.{◌≡◌, ◌<◌};
ghost use Rattle.rules.specs.Sizes.{width};
ghost use Rattle.rules.specs.Books.{blank, freed, begun, posted, marked, first_kept, read_marked, sealed};

use crate::handle;
use rules::Place;
use rules::statuses::{COMMITTED, FREE, LIVE};

// A free place: zero in all but the turn.
pub fn cleared(turn: u16) -> Place
    ensures { result ≡ blank turn }
{
    Place {
        turn,
        status: FREE,
        begin: 0,
        commit: 0,
        written: [false; 32],
        first: [0; 32],
        last: [0; 32],
    }
}

// Freed: a place at give up, Conflict or close.
#[tactic(auto, unfolding(rules::specs::Books::freed))]
pub fn free(p: Place) -> Place
    ensures { result ≡ freed p }
{
    cleared(p.turn)
}

// Begun at the record of number n, with the turn one up.
#[tactic(auto, unfolding(rules::specs::Books::begun))]
pub fn begin(p: Place, n: u16) -> Place
    ensures { result ≡ begun p n }
{
    Place {
        status: LIVE,
        begin: n,
        ..cleared(handle::next_turn(p.turn))
    }
}

// Begin, write of the cell and commit in one record, number n.
#[tactic(auto, unfolding(rules::specs::Books::posted, rules::specs::Books::begun, rules::specs::Books::marked, rules::specs::Books::sealed))]
pub fn post(p: Place, cell: usize, n: u16) -> Place
    requires { cell < width }
    ensures { result ≡ posted p cell n }
{
    commit(mark(begin(p, n), cell), n)
}

// The cell marked written.
#[tactic(auto, unfolding(rules::specs::Books::marked))]
pub fn mark(mut p: Place, cell: usize) -> Place
    requires { cell < width }
    ensures { result ≡ marked p cell }
{
    p.written[cell] = true;
    p
}

// The first judged read of a cell once there is one at the record of number n: an earlier one is kept.
// A number, 0 for none: so document 01 keeps a place's reads (`first_kept`).
fn first_of(earlier: u16, n: u16) -> u16
    ensures { result ≡ first_kept earlier n }
{
    if earlier == 0 { n } else { earlier }
}

// A judged read of the cell at the record of number n: the first is kept, the last moves.
#[tactic(auto, unfolding(rules::specs::Books::read_marked))]
pub fn mark_read(mut p: Place, cell: usize, n: u16) -> Place
    requires { cell < width }
    ensures { result ≡ read_marked p cell n }
{
    p.first[cell] = first_of(p.first[cell], n);
    p.last[cell] = n;
    p
}

// Committed at the record of number n.
#[tactic(auto, unfolding(rules::specs::Books::sealed))]
pub fn commit(p: Place, n: u16) -> Place
    ensures { result ≡ sealed p n }
{
    Place {
        status: COMMITTED,
        commit: n,
        ..p
    }
}
