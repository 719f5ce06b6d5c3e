// The step machine over one trigger table: its books, and whether they are sound.
#![tactic(auto)]

pub mod books;
pub mod call;
