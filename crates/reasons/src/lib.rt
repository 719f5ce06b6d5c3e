// The refusals: for each call the first reason that applies, or nothing where none does.
#![tactic(auto, using(crate::proofs::Parts::free_by_places, crate::proofs::Parts::live_by_places, crate::proofs::Parts::live_at_most), unfolding(rules::specs::Books::no_free, survey::specs::Found::FoundBelow, rules::specs::Numbers::first_reason, rules::specs::Steps::soundness_reason, rules::specs::Steps::handle_reasons, rules::specs::Steps::cell_reason, rules::specs::Steps::handle_cell_reasons, rules::specs::Steps::room_reason, rules::specs::Steps::begin_reasons, rules::specs::Steps::write_reasons, rules::specs::Steps::read_reasons, rules::specs::Steps::show_reasons, rules::specs::Steps::commit_reasons, rules::specs::Steps::give_up_reasons, rules::specs::Steps::post_reasons, rules::specs::Steps::order_reasons, rules::specs::Steps::close_reasons))]

pub mod asked;
pub mod shared;
