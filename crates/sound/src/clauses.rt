// What soundness asks of a place, clause by clause.
ghost use Rattle.std.specs.Prelude.{◌≡◌};
ghost use Rattle.basics.specs.Below.{all_below};
ghost use Rattle.rules.specs.Books.{place_at, of_places};
ghost use Rattle.rules.specs.Sound.{is_clear, held_sound, commit_sound, place_sound};

use rules::statuses::{COMMITTED, FREE, LIVE};
use rules::{Controller, Limits, Place};
use sound_cells::cells;

// Zero in all but the turn.
#[tactic(auto, unfolding(rules::specs::Sound::is_clear))]
fn is_place_clear(p: &Place, z: Limits) -> bool
    ensures { result ≡ is_clear z.size p.now }
{
    p.begin == 0 && p.commit == 0 && cells::are_cells_clear(p, z)
}

// A held place has a begin record, from 1 to the record count, and its reads are sound.
#[tactic(auto, unfolding(rules::specs::Sound::held_sound))]
fn is_held_sound(p: &Place, records: u16, z: Limits) -> bool
    ensures { result ≡ held_sound z.size records p.now }
{
    1 <= p.begin && p.begin <= records && cells::are_reads_sound(p, records, z)
}

// A committed place has a commit record, from its begin to the record count.
#[tactic(auto, unfolding(rules::specs::Sound::commit_sound))]
fn is_commit_sound(p: &Place, records: u16) -> bool
    ensures { result ≡ commit_sound records p.now }
{
    p.begin <= p.commit && p.commit <= records
}

// A place by its status: free, live or committed; any other status is unsound.
#[tactic(auto, unfolding(rules::specs::Sound::place_sound))]
fn is_place_sound(p: &Place, records: u16, z: Limits) -> bool
    ensures { result ≡ place_sound z.size records p.now }
{
    match p.status {
        FREE => is_place_clear(p, z),
        LIVE => is_held_sound(p, records, z) && p.commit == 0,
        COMMITTED => is_held_sound(p, records, z) && is_commit_sound(p, records),
        _ => false,
    }
}

// Each place by itself.
#[tactic(auto, using(basics::proofs::Below::all_none, basics::proofs::Below::all_passes))]
pub fn each_sound(at: Controller) -> bool
    ensures { result ≡ all_below (λ i. place_sound at.entry.limits.size at.entry.records (place_at (of_places at.entry.places.now) i)) at.entry.limits.size.places }
{
    for i in 0..at.limits.size.places {
        if !is_place_sound(&at.places[i], at.records, at.limits) {
            return false;
        }
    }
    true
}
