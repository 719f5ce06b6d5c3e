// How a proposed list explains a log: what a record asks of the list, and where a value comes from.
#![tactic(auto)]

pub mod explain;
pub mod values;
