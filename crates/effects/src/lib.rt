// What a call does when no reason applies, and the record that it adds.
#![tactic(auto, using(crate::proofs::ByPlaces::cycle_at, crate::proofs::ByPlaces::order_at, crate::proofs::ByPlaces::order_few), unfolding(rules::specs::Books::closed, rules::specs::Books::lowest_free, rules::specs::Books::with_place, rules::specs::Books::with_record, rules::specs::Judged::books_granted, rules::specs::Judged::granted_of, rules::specs::Judged::judged_of, rules::specs::Judged::meets_conflict, rules::specs::Judged::turned_back, rules::specs::State::recorded, rules::specs::Steps::begin_of, rules::specs::Steps::close_of, rules::specs::Steps::give_up_of, rules::specs::Steps::order_of, rules::specs::Steps::own_read_of, rules::specs::Steps::post_of, rules::specs::Steps::read_of, rules::specs::Steps::write_of, survey::specs::Found::FoundBelow))]

ghost use Rattle.std.specs.Prelude.{◌<◌};
ghost use Rattle.rules.specs.Sizes.{most_records};

pub mod held;
pub mod judged;
pub mod record;
pub mod taken;
pub mod whole_day;

use rules::refusal::Refusal;
use rules::{Controller, Place};

// What a call comes to, whatever it gives, and the books after it.
#[derive(Clone, Copy)]
pub struct StepOf<G> {
    pub given: G,
    pub records: u16,
    pub places: [Place; 32],
}

// A call of document 01 gives a handle (begin, post), a count (order), else 0, or why it is refused.
pub type Step = StepOf<Result<u32, Refusal>>;

// A transaction at its place, of a controller whose log has room for one record more.
// The promises name the lent slices: so their lengths are asked for by clauses, and by no type.
#[derive(Clone, Copy)]
pub struct Transaction<'a> {
    pub at: Controller<'a>,
    pub place: usize,
    ghost place_there: { place < at.limits.size.places },
    ghost room: { at.records < most_records },
}
