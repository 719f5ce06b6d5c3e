// Searches over the places: the lowest free one, and how many are live.
ghost use Rattle.std.specs.Prelude.{◌≡◌};
ghost use Rattle.rules.specs.Books.{of_places, lowest_free, live_count};
ghost use Rattle.survey.specs.Found.{FoundBelow};

use rules::statuses::{FREE, LIVE};
use rules::{Limits, Place};

// The lowest free place, if there is one.
pub fn lowest_free_of(places: &[Place; 32], z: Limits) -> Option<usize>
    ensures { FoundBelow z.size.places (lowest_free z.size (of_places places.now)) result }
{
    (0..z.size.places).find(|i| places[*i].status == FREE)
}

// How many transactions are live.
pub fn live_count_of(places: &[Place; 32], z: Limits) -> u32
    ensures { result ≡ live_count z.size (of_places places.now) }
{
    places[..z.size.places]
        .iter()
        .filter(|p| p.status == LIVE)
        .count() as u32
}
