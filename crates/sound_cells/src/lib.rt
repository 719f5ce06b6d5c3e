// What a place read, as soundness asks it.
#![tactic(auto)]

pub mod cells;
