// What every place has of one kind, as an array: the columns of the books.
ghost use Rattle.std.specs.Prelude.{◌≡◌};
ghost use Rattle.basics.specs.Below.{filled_below};
ghost use Rattle.rules.specs.Sizes.{width};
ghost use Rattle.rules.specs.Books.{of_places, place_at, held_status};
ghost use Rattle.survey.specs.Columned.{Columned};

use rules::statuses::{COMMITTED, LIVE};
use rules::{Limits, Place};

// How many are live; by place, who is held and who is committed, and the begin and commit records.
// The arrays are twice as wide as there can be places, so that 32 more stand behind each: who is not there is not held and has no records.
// An array for each kind, and not one of structs: what passes over a kind alone (`sound_keys`) is laid out in vector instructions.
#[derive(Clone, Copy)]
pub struct Columns {
    pub live: u32,
    pub held: [bool; 64],
    pub committed: [bool; 64],
    pub begins: [u16; 64],
    pub commits: [u16; 64],
}

// A held place is live or committed. A number, as the status of a place is one (`Place`).
fn is_held(status: u8) -> bool
    ensures { result ≡ held_status status }
{
    matches!(status, LIVE | COMMITTED)
}

// All columns, in one pass.
#[tactic(auto, using(basics::proofs::Filled::filled_none, basics::proofs::Filled::filled_set, basics::proofs::Below::count_none, basics::proofs::Below::count_passes, basics::proofs::Below::count_skips, basics::proofs::Below::count_at_most), unfolding(rules::specs::Books::live_count))]
pub fn columns_of(places: &[Place; 32], z: Limits) -> Columns
    ensures { Columned z.size (of_places places.now) result }
{
    let mut live: u32 = 0;
    let mut held = [false; 64];
    let mut committed = [false; 64];
    let mut begins: [u16; 64] = [0; 64];
    let mut commits: [u16; 64] = [0; 64];
    for i in 0..z.size.places {
        let p = &places[i];
        held[i] = is_held(p.status);
        committed[i] = p.status == COMMITTED;
        begins[i] = p.begin;
        commits[i] = p.commit;
        if p.status == LIVE {
            live += 1;
        }
    }
    Columns {
        live,
        held,
        committed,
        begins,
        commits,
    }
}

// The begin records.
#[tactic(auto, using(basics::proofs::Filled::filled_none, basics::proofs::Filled::filled_set, basics::proofs::Filled::filled_whole))]
pub fn begins_of(places: &[Place; 32], z: Limits) -> [u16; 32]
    ensures { result ≡ filled_below (λ i. (place_at (of_places places.now) i).begin) 0 z.size.places width }
{
    let mut begins: [u16; 32] = [0; 32];
    for i in 0..z.size.places {
        begins[i] = places[i].begin;
    }
    begins
}
