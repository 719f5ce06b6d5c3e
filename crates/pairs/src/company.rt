// The moment of a transaction, and its company.
ghost use Rattle.std.specs.Prelude.{◌≡◌, false, ◌<◌};
ghost use Rattle.basics.specs.Below.{filled_below};
ghost use Rattle.rules.specs.Sizes.{width};
ghost use Rattle.rules.specs.Books.{of_places};
ghost use Rattle.rules.specs.Judging.{latest_read, moment, company};
ghost use Rattle.pairs.specs.Commits.{record_or_none};

use rules::statuses::COMMITTED;
use rules::{Limits, Place};

// The record of the place's last judged read that was granted, if there is one.
#[tactic(auto, using(basics::proofs::Below::greatest_none, basics::proofs::Below::greatest_more), unfolding(rules::specs::Judging::latest_read))]
pub fn latest_read(p: Place, z: Limits) -> Option<u16>
    ensures { result ≡ record_or_none (latest_read z.size p) }
{
    let mut latest: u16 = 0;
    for c in 0..z.size.cells {
        latest = latest.max(p.last[c]);
    }
    if latest == 0 { None } else { Some(latest) }
}

// The moment: the record of its commit or post; else of its last judged read that was granted; else of its begin.
#[tactic(auto, unfolding(rules::specs::Judging::moment))]
pub fn moment_of(p: Place, z: Limits) -> u16
    ensures { result ≡ moment z.size p }
{
    if p.status == COMMITTED {
        p.commit
    } else {
        latest_read(p, z).unwrap_or(p.begin)
    }
}

// Who is in the company of the transaction at place i: itself and every transaction committed before its moment.
#[tactic(auto, using(basics::proofs::Filled::filled_none, basics::proofs::Filled::filled_set, basics::proofs::Filled::filled_whole), unfolding(rules::specs::Judging::company))]
pub fn company_of(places: &[Place; 32], i: usize, z: Limits) -> [bool; 32]
    requires i_lt_width { i < width }
    ensures { result ≡ filled_below (company z.size (of_places places.now) i) false z.size.places width }
{
    let moment = moment_of(places[i], z);
    let mut present = [false; 32];
    for k in 0..z.size.places {
        present[k] = k == i || (places[k].status == COMMITTED && places[k].commit < moment);
    }
    present
}
