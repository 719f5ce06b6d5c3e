// The checker for the duty desk's program in C: numbers and byte slices, the list as little-endian pairs of bytes. `checker_c` exports it.
ghost use Rattle.std.specs.Prelude.{◌≡◌, ◌*◌, ◌≤◌, length, take};
ghost use Rattle.rules.specs.Sizes.{yard};
ghost use Rattle.checker.specs.Desk.{pairs_of, checked_pairs};

use crate::proposal;
use crate::proposal::MOST_KEPT;
use log_bytes::bytes;
use rules::refusal::{self, Refusal};

// The numbers of the first pairs of bytes, as many as the lent list has room for.
fn unpack(pairs: &[u8], into: &mut [u16])
    requires { 2 * length into.old ≤ length pairs.now }
    ensures { into.new ≡ take (length into.old) (pairs_of pairs.now) }
{
    for (i, number) in into.iter_mut().enumerate() {
        *number = bytes::u16_of(&pairs[2 * i..2 * i + 2]);
    }
}

// The checker's number; 1 if the list's bytes are odd.
#[tactic(auto, using(crate::proofs::Unpacked::odd_refused))]
pub fn nogturshan_check(opening: &[u8], log: &[u8], begin: u32, list: &[u8]) -> u8
    ensures { result ≡ checked_pairs yard opening.now log.now begin list.now }
{
    if list.len() % 2 != 0 {
        return Refusal::Lent.number();
    }
    // An array of fixed length, since nothing is allocated; what is used of it is lent.
    let mut numbers = [0u16; MOST_KEPT];
    let count = MOST_KEPT.min(list.len() / 2);
    unpack(list, &mut numbers[..count]);
    refusal::said(proposal::checked(opening, log, begin, &numbers[..count]))
}
