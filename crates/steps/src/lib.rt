// The step rules whole, for any number of places and cells up to 32: the first reason that applies, and only if none does what the call does.
#![tactic(auto, using(crate::proofs::Either::buffer_stays, crate::proofs::Either::log_stays, crate::proofs::Known::begin_known, crate::proofs::Known::close_known, crate::proofs::Known::commit_known, crate::proofs::Known::give_up_known, crate::proofs::Known::order_known, crate::proofs::Known::post_known, crate::proofs::Known::read_known, crate::proofs::Known::show_known, crate::proofs::Known::write_known, rules::proofs::Answered::refuses), unfolding(rules::specs::State::refused, rules::specs::State::shown_at, rules::specs::State::shown_bytes, rules::specs::State::unless_refused, rules::specs::Steps::begin_rule, rules::specs::Steps::close_rule, rules::specs::Steps::commit_rule, rules::specs::Steps::give_up_rule, rules::specs::Steps::order_rule, rules::specs::Steps::post_rule, rules::specs::Steps::read_rule, rules::specs::Steps::show_of, rules::specs::Steps::show_rule, rules::specs::Steps::write_rule))]

pub mod ending;
pub mod looking;
pub mod reading;
pub mod taking;
