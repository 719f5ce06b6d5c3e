// Whether books are sound.
#![tactic(auto)]

pub mod clauses;
pub mod whole;
