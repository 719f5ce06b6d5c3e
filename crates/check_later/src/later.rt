// Who is listed later than a position, and has already done what would put it before the one that stands there. It is told by what a replay
// keeps of each listed transaction: its commit record, its latest write of each cell, and whether it made a judged read of it.
ghost use Rattle.std.specs.Prelude.{◌≡◌, ◌<◌, ◌≤◌};
ghost use Rattle.rules.specs.Sizes.{width};
ghost use Rattle.check_later.specs.Later.{used, committed_later, used_later, any_used_later, overtaken};

use check_replay::state::Listed;
use log_bytes::kinds;
use rules::Limits;

// What counts as a use of a cell: a commit of it, or a judged read of it too.
#[derive(Clone, Copy, PartialEq, Eq)]
pub enum Uses {
    Commits,
    CommitsAndReads,
}

// A listed transaction has used a cell.
fn has_used(own: &Listed, cell: usize, uses: Uses) -> bool
    requires { cell < width }
    ensures { result ≡ used uses cell own.now }
{
    let reads = uses == Uses::CommitsAndReads;
    (own.commit.is_some() && own.wrote_in(cell).is_some()) || (reads && own.read[cell])
}

// Somebody listed later has committed.
pub fn is_committed_later(listed: &[Listed; 32], at: usize, count: usize) -> bool
    requires { count ≤ width }
    ensures { result ≡ committed_later listed.now at count }
{
    listed[..count]
        .iter()
        .enumerate()
        .any(|(i, own)| at < i && own.commit.is_some())
}

// Somebody listed later has used the cell.
pub fn is_used_later(
    listed: &[Listed; 32],
    cell: usize,
    uses: Uses,
    at: usize,
    count: usize,
) -> bool
    requires { (count ≤ width) × (cell < width) }
    ensures { result ≡ used_later listed.now cell uses at count }
{
    listed[..count]
        .iter()
        .enumerate()
        .any(|(i, own)| at < i && has_used(own, cell, uses))
}

// Somebody listed later has used one of the cells that the one at the position has written.
#[tactic(auto, using(basics::proofs::Below::any_none, basics::proofs::Below::any_skips, basics::proofs::Tested::any_found, basics::proofs::Tested::none_found), unfolding(crate::specs::Later::any_used_later))]
pub fn is_any_used_later(listed: &[Listed; 32], at: usize, count: usize, z: Limits) -> bool
    requires count_le_width { (count ≤ width) × (at < width) }
    ensures { result ≡ any_used_later z.size listed.now at count }
{
    for c in 0..z.size.cells {
        let wrote = listed[at].wrote_in(c).is_some();
        if wrote && is_used_later(listed, c, Uses::CommitsAndReads, at, count) {
            return true;
        }
    }
    false
}

// With a record that starts or commits, somebody listed later comes to stand before its transaction.
#[tactic(auto, unfolding(crate::specs::Later::overtaken))]
pub fn is_overtaken(
    listed: &[Listed; 32],
    kind: u8,
    cell: usize,
    at: usize,
    count: usize,
    z: Limits,
) -> bool
    requires count_le_width { (count ≤ width) × ((at < width) × (cell < width)) }
    ensures { result ≡ overtaken z.size listed.now kind cell at count }
{
    if kinds::posts(kind) {
        return is_committed_later(listed, at, count)
            || is_used_later(listed, cell, Uses::CommitsAndReads, at, count);
    }
    if kinds::starts(kind) {
        return is_committed_later(listed, at, count);
    }
    kinds::commits(kind) && is_any_used_later(listed, at, count, z)
}
