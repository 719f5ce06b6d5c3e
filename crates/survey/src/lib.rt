// What is seen of all places at once: their columns, and searches over them.
// Of places and limits, and not of a controller: nothing here depends on a record count.
#![tactic(auto)]

pub mod columns;
pub mod search;
