// Whether a record of a listed transaction is explained by the list.
ghost use Rattle.std.specs.Prelude.{◌≡◌, ◌+◌, ◌*◌, ◌<◌, ◌≤◌, length};
ghost use Rattle.rules.specs.Sizes.{width, cell_bytes, record_bytes, table_bytes};
ghost use Rattle.check_explain.specs.Explained.{Past, PastWrites, PastOnly, CellRight, read_explained, own_explained, explained};

use crate::values::Values;
use check_later::later::{self, Uses};
use check_replay::state::{Listed, Met, Replay};
use log_bytes::kinds;
use rules::Limits;

// A judged read: nobody listed later has committed the cell, and the value is the table's.
#[tactic(auto, unfolding(crate::specs::Explained::read_explained))]
fn is_read_explained(
    from: &Replay,
    values: Values,
    cell: usize,
    n: u16,
    at: usize,
    count: usize,
) -> bool
    requires past { Past n from.now.table }
    requires le_n { (1 ≤ n) × (record_bytes * n ≤ length values.log.now) }
    requires cell_within { (cell_bytes * cell + cell_bytes ≤ length values.opening.now) × ((cell < width) × (count ≤ width)) }
    ensures { result ≡ read_explained values.entry.opening.now values.entry.log.now from.now cell n at count }
{
    !later::is_used_later(&from.listed, cell, Uses::Commits, at, count)
        && values.is_from(n, from.table[cell], cell)
}

// An own read: the value is that of the transaction's latest write of the cell.
#[tactic(auto, unfolding(crate::specs::Explained::own_explained))]
fn is_own_explained(own: &Listed, values: Values, cell: usize, n: u16) -> bool
    requires past { PastWrites n own.now }
    requires le_n { (1 ≤ n) × (record_bytes * n ≤ length values.log.now) }
    requires cell_within { (cell_bytes * cell + cell_bytes ≤ length values.opening.now) × (cell < width) }
    ensures { result ≡ own_explained values.entry.opening.now values.entry.log.now own.now cell n }
{
    values.is_from(n, own.wrote_in(cell), cell)
}

// A record of the transaction listed at a position: nobody who is not listed commits before the moment, nobody listed later comes to stand
// before it, and what it read is what the list carries to it.
#[tactic(auto, unfolding(crate::specs::Explained::explained))]
pub fn is_explained(
    from: &Replay,
    values: Values,
    met: Met,
    at: usize,
    count: usize,
    z: Limits,
) -> bool
    requires past_only { PastOnly met.number from.now }
    requires le_n { (1 ≤ met.number) × ((record_bytes * met.number ≤ length values.log.now) × (length values.opening.now ≡ table_bytes z.size)) }
    requires cell_right { CellRight z.size met.entry }
    requires at_lt_count { (at < count) × (count ≤ width) }
    ensures { result ≡ explained z.size values.entry.opening.now values.entry.log.now from.now met.entry met.number at count met.named }
{
    let kind = met.entry.kind;
    let cell = met.entry.cell as usize;
    if met.sets_moment() && from.stranger {
        return false;
    }
    if kinds::is_judged_read(kind) {
        return is_read_explained(from, values, cell, met.number, at, count);
    }
    if kinds::is_own_read(kind) {
        return is_own_explained(&from.listed[at], values, cell, met.number);
    }
    !later::is_overtaken(&from.listed, kind, cell, at, count, z)
}
