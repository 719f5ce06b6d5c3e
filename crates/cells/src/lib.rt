// The table's and the drafts' bytes, cell by cell: a value read, put, laid over, shown.
#![tactic(auto)]

pub mod cell;
pub mod lay;
pub mod shown;
