// Keys that differ: begin and commit records.
#![tactic(auto)]

pub mod apart;
