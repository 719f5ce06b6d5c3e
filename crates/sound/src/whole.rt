// All clauses of soundness together.
ghost use Rattle.std.specs.Prelude.{◌≡◌};
ghost use Rattle.rules.specs.Books.{books_at};
ghost use Rattle.rules.specs.Sound.{sound};

use crate::clauses;
use rules::Controller;
use rules::sizes::MOST_RECORDS;
use sound_keys::apart;
use survey::columns;

// Whether the books of that record count and those places are sound.
pub fn are_sound(at: Controller) -> bool
    ensures { result ≡ sound at.entry.limits.size (books_at at.entry) }
{
    let seen = columns::columns_of(at.places, at.limits);
    let places = at.limits.size.places;
    at.records as usize + seen.live as usize <= MOST_RECORDS
        && clauses::each_sound(at)
        && apart::are_apart(seen.held, seen.begins, places)
        && apart::are_apart(seen.committed, seen.commits, places)
}
