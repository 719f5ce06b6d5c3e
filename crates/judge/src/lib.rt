// What is judged: the search for a cycle, the given order, and the verdict.
// The search and the order ask for a number of places within the width, and for no `Limits`, which would ask the same of cells.
#![tactic(auto)]

pub mod cycle;
pub mod order;
pub mod verdict;
