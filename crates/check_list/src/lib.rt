// A proposed list: where a transaction is listed, whether none is listed twice, who of those listed is in the company.
#![tactic(auto)]

pub mod company;
pub mod lists;
