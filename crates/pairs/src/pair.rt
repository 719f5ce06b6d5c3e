// Whether K stands before M: real time, and the kinds of pair that a cell makes.
ghost use Rattle.std.specs.Prelude.{◌≡◌, ◌≤◌};
ghost use Rattle.rules.specs.Sizes.{width};
ghost use Rattle.rules.specs.Judging.{real_time, precedes};
ghost use Rattle.pairs.specs.CellPass.{comes_first};
ghost use Rattle.pairs.specs.Commits.{commit_of};

use rules::sizes::WIDTH;
use rules::statuses::COMMITTED;
use rules::{Limits, Place};

// Real time: K is committed and its commit record is below M's begin record.
#[tactic(auto, unfolding(rules::specs::Judging::real_time))]
pub fn is_real_time(k: Place, m: Place) -> bool
    ensures { result ≡ real_time k m }
{
    k.status == COMMITTED && k.commit < m.begin
}

// The commit record of a committed one.
fn commit_of(p: Place) -> Option<u16>
    ensures { result ≡ commit_of p }
{
    if p.status == COMMITTED {
        Some(p.commit)
    } else {
        None
    }
}

// Whether K comes first in some cell, by the commit record of each. The pass has no exit and no branch, so that it is compiled to instructions that look
// at many cells at once.
#[tactic(auto, using(basics::proofs::Below::any_none, basics::proofs::Below::any_more))]
fn comes_first(k: Place, commit: u16, m: Place, sealed: u16, cells: usize) -> bool
    requires { cells ≤ width }
    ensures { result ≡ comes_first k commit m sealed cells }
{
    let mut common = false;
    let mut read_after = false;
    let mut read_before = false;
    for c in 0..cells {
        common |= k.written[c] & m.written[c];
        read_after |= k.written[c] & (commit < m.last[c]);
        read_before |= m.written[c] & ((1 <= k.first[c]) & (k.first[c] < sealed));
    }
    ((commit < sealed) & common) | (read_after | read_before)
}

// One of the four. What one that is not committed wrote counts for nothing: as K its commit is 65,535, after which no record comes, and as M 0.
// 32 cells are asked for by that number, so that the pass over them has a fixed length and is laid out without a loop.
pub fn is_before(k: Place, m: Place, z: Limits) -> bool
    ensures { result ≡ precedes z.size k m }
{
    if is_real_time(k, m) {
        return true;
    }
    let commit = commit_of(k).unwrap_or(65535);
    let sealed = commit_of(m).unwrap_or(0);
    if z.size.cells == WIDTH {
        comes_first(k, commit, m, sealed, WIDTH)
    } else {
        comes_first(k, commit, m, sealed, z.size.cells)
    }
}
