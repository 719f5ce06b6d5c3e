// The verdict on a judged call, and the order of a transaction. Of places and limits, and not of a controller: judging depends on no record count.
ghost use Rattle.std.specs.Prelude.{◌≡◌, ◌<◌, ◌≤◌, length};
ghost use Rattle.rules.specs.Books.{of_places};
ghost use Rattle.rules.specs.State.{buffer_after};
ghost use Rattle.rules.specs.Judging.{has_cycle, given_order};

use crate::{cycle, order};
use pairs::{company, square};
use rules::{Limits, Place};
use survey::columns;

// Whether the pairs of the company of the transaction at place i contain a cycle.
pub fn is_conflict(places: &[Place; 32], i: usize, z: Limits) -> bool
    requires i_lt_places { i < z.size.places }
    ensures { result ≡ has_cycle z.size (of_places places.now) i }
{
    let present = company::company_of(places, i, z);
    let rows = square::square(places, present, z);
    cycle::contains_cycle(rows, present, z.size.places)
}

// The order of the transaction at place i into the first numbers of the lent ones, the others staying; the answer is how many.
#[tactic(auto, using(crate::proofs::Given::count_right, crate::proofs::Given::order_right))]
pub fn give_order(places: &[Place; 32], i: usize, z: Limits, numbers: &mut [u16]) -> usize
    requires i_lt_places { (i < z.size.places) × (z.size.places ≤ length numbers.old) }
    ensures count { result ≡ length (given_order z.size (of_places places.now) i) }
    ensures numbers { numbers.new ≡ buffer_after (given_order z.size (of_places places.now) i) numbers.old }
{
    let members = company::company_of(places, i, z);
    let rows = square::square(places, members, z);
    let begins = columns::begins_of(places, z);
    order::put_order(rows, begins, members, z.size.places, numbers)
}
