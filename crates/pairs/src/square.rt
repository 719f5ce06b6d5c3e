// The square of pairs: row m says who stands before m, among those present.
ghost use Rattle.std.specs.Prelude.{◌≡◌, ◌<◌};
ghost use Rattle.rules.specs.Books.{of_places};
ghost use Rattle.rules.specs.Sizes.{width};
ghost use Rattle.pairs.specs.Square.{row_of, square_of};

use crate::pair;
use rules::{Limits, Place};

// The row of m: who of those present stands before it.
#[tactic(auto, using(basics::proofs::Filled::filled_none, basics::proofs::Filled::filled_set, basics::proofs::Filled::filled_passed, basics::proofs::Filled::filled_whole, crate::proofs::Squares::stands_other, crate::proofs::Squares::stands_itself), unfolding(crate::specs::Square::row_of))]
fn row_of(places: &[Place; 32], present: &[bool; 32], m: usize, z: Limits) -> [bool; 32]
    requires { m < width }
    ensures { result ≡ row_of z.size (of_places places.now) present.now m }
{
    let after = places[m];
    let mut row = [false; 32];
    for k in 0..z.size.places {
        if present[k] && k != m {
            row[k] = pair::is_before(places[k], after, z);
        }
    }
    row
}

// All rows of those present.
#[tactic(auto, using(basics::proofs::Filled::filled_none, basics::proofs::Filled::filled_set, basics::proofs::Filled::filled_passed, basics::proofs::Filled::filled_whole), unfolding(crate::specs::Square::square_of))]
pub fn square(places: &[Place; 32], present: [bool; 32], z: Limits) -> [[bool; 32]; 32]
    ensures { result ≡ square_of z.size (of_places places.now) present }
{
    let mut rows = [[false; 32]; 32];
    for m in 0..z.size.places {
        if present[m] {
            rows[m] = row_of(places, &present, m, z);
        }
    }
    rows
}
