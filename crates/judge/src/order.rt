// The given order: again and again, among those with nobody left before them, the one with the lowest begin record.
ghost use Rattle.std.specs.Prelude.{◌≡◌, map, ◌≤◌, length};
ghost use Rattle.basics.specs.Elimination.{next};
ghost use Rattle.rules.specs.Sizes.{width};
ghost use Rattle.rules.specs.State.{buffer_after};
ghost use Rattle.pairs.specs.Square.{is_in, said_before};
ghost use Rattle.survey.specs.Found.{FoundBelow};
ghost use Rattle.judge.specs.Ordered.{begin_of, ordered};

use pairs::marks;

// The one to take next, with nobody left before him, if anybody can be taken.
fn next_of(
    rows: [[bool; 32]; 32],
    begins: [u16; 32],
    left: [bool; 32],
    places: usize,
) -> Option<usize>
    requires { places ≤ width }
    ensures { FoundBelow places (next places (said_before rows) (begin_of begins) (is_in left)) result }
{
    (0..places)
        .filter(|m| left[*m] && !marks::overlap(left, rows[*m], places))
        .min_by_key(|m| begins[*m])
}

// The order of those present into the first numbers of the lent ones, the others staying; the answer is how many.
pub fn put_order(
    rows: [[bool; 32]; 32],
    begins: [u16; 32],
    present: [bool; 32],
    places: usize,
    order: &mut [u16],
) -> usize
    requires { (places ≤ width) × (places ≤ length order.old) }
    ensures count { result ≡ length (ordered rows begins present places) }
    ensures numbers { order.new ≡ buffer_after (map (begin_of begins) (ordered rows begins present places)) order.old }
{
    let mut left = present;
    for count in 0..places {
        let Some(m) = next_of(rows, begins, left, places) else {
            return count;
        };
        order[count] = begins[m];
        left[m] = false;
    }
    places
}
