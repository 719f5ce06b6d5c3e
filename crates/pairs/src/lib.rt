// Moment and company, the four kinds of pair, and the square of pairs.
#![tactic(auto)]

pub mod company;
pub mod marks;
pub mod pair;
pub mod square;
